// The laws that join terms and judgments that are read to the definition are in proofs/. There is no code here.

#![tactic(auto)]
