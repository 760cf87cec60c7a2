// The network of centres and chains: definitions and laws only, no code. See specs/ and proofs/.
#![tactic(auto)]
