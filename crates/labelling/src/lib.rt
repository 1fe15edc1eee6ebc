// The labelling of a rooted diagram: definitions (specs) and the theorems about it (proofs). No code.
#![tactic(auto)]
