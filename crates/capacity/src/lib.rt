// What a text of so many bytes can hold at the most: proofs only.

#![tactic(auto)]
