// The single list of all sizes up to a bound, and the branch visits along it: definitions (specs) and laws about them (proofs). No code.
#![tactic(auto)]
