// The law that the page is the definition's is in proofs/. There is no code here.

#![tactic(auto)]
