// The laws that join what is asked of a reader to the definition are in proofs/. There is no code here.

#![tactic(auto)]
