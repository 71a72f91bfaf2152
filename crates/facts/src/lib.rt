// What several crates use of words and of the definition's names: proofs only.

#![tactic(auto)]
