// The laws of the definitions' searches, lists, refusal chains and tests: proofs/ has them. It has no code.

#![tactic(auto)]
