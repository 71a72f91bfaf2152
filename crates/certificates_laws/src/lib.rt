// The laws that join crates forms and certificates to the definition are in proofs/. There is no code here.

#![tactic(auto)]
