// The law that joins the three texts' walks to the definition is in proofs/. There is no code here.

#![tactic(auto)]
