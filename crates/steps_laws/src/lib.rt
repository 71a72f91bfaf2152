// The laws that join crates references, step_bindings, step_items and steps to the definition are in proofs/. There is no code here.

#![tactic(auto)]
