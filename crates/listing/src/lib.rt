// The listing of the words of a size: definitions (specs) and the theorems about it (proofs). No code.
#![tactic(auto)]
