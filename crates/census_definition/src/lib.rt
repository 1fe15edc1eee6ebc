// The text of a census, byte by byte: definitions (specs/Census.antt) and laws of it (proofs), without code.
#![tactic(auto)]
