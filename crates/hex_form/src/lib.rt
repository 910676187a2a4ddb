// Intel HEX: specs/ says what a text means and how it is written, proofs/ what follows. There is no code here.
#![tactic(auto)]
