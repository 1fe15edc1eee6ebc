// Whole labellings of a diagram, carried out event by event in lent arrays: the word and the lists written out.
#![tactic(auto)]

pub mod writing;
