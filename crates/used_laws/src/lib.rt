// The law that the used steps are the definition's is in proofs/. There is no code here.

#![tactic(auto)]
