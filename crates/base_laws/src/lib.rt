// Definitions and facts that know nothing of the V30: specs/ and proofs/.
#![tactic(auto)]
