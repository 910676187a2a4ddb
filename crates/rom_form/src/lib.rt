// The listing of a ROM.
#![tactic(auto)]
