// Finite sums and lists: definitions and laws only, no code. See specs/ and proofs/.
#![tactic(auto)]
