// The laws that join crate goals to the definition are in proofs/. There is no code here.

#![tactic(auto)]
