// What relabel, compare, symmetries and kept answer: Relabel answers the length of the word written, compare whether the two diagrams are
// isomorphic, symmetries their number and kept the keep mark, each a Result with the refusal. The values of the answers are in
// specs/Answers, and what each operation promises in specs/Promises.
#![tactic(auto)]

use refusals::Refusal;

// Which of two diagrams.
#[derive(Clone, Copy)]
pub enum Side {
    First,
    Second,
}

// A refusal of compare, with the diagram that it concerns.
#[derive(Clone, Copy)]
pub struct SideRefusal {
    pub refusal: Refusal,
    pub side: Side,
}
