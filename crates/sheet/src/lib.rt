// A sheet of words: cells of 52 numbers, each with a word's length, its items and then zeros. What a cell is answered; the cells and the promise
// of the operation are in specs.
#![tactic(auto)]

// The answer to a cell: the number of its refusal, 0 where there is none, and its position, 0 where it is refused. A pair and no Result: `cell` and
// `answers` of specs/Cells are of it, and the lists that are handed back hold its two numbers.
#[derive(Clone, Copy)]
pub struct CellAnswer {
    pub refusal: u16,
    pub position: u64,
}
