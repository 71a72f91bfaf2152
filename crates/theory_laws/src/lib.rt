// The laws that join both walks over a rulebook to the definition are in specs/ and proofs/. There is no code here.

#![tactic(auto)]
