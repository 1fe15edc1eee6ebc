// The single list by its successor and its visits by what has been passed: laws (proofs). No code.
#![tactic(auto)]
