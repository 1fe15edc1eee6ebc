// The cycles of a permutation of the edges: definitions (specs) and laws (proofs). No code.
#![tactic(auto)]
