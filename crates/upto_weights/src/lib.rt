// Words and branches of the single list, counted along the tree of its words: definitions (specs) and laws about them (proofs). No code.
#![tactic(auto)]
