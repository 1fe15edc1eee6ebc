// Functions over a lent book, and functions that lend one: the borrow checker walks through their code by itself, so no lemma is left to state here.
#![tactic(auto)]
