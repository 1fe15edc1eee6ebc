// Words of a size up to a bound, read by the stack's height and the labels left: definitions (specs) and laws about them (proofs). No code.
#![tactic(auto)]
