// Theorems about the whole machine, over the definition and what the calls promise: specs/ and proofs/.
#![tactic(auto)]
