// The laws that join crates matching and concluding to the definition are in proofs/. There is no code here.

#![tactic(auto)]
