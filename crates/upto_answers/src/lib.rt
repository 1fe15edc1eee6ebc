// A run through the single list of all sizes up to a bound: what it carries, and what its beginning and its step answer. The values of a
// step's answer are in specs/Answers, the runs of a bound and what the operations promise in specs/Promises.
#![tactic(auto)]

use diagrams::Diagram;
use refusals::Refusal;

// What a run carries: its bound, whether it is fresh (0), at a diagram (1) or finished (2), the word that it is at, and the branch visits so far;
// unused items are 0.
#[derive(Clone, Copy)]
pub struct UptoRun {
    pub bound: u64,
    pub stage: u64,
    pub length: u64,
    pub visits: u64,
    pub items: [u16; Diagram::MAX_LISTED + 1],
}

// What a beginning answers. The run is not inside the Result, because UptoBeginPromise fixes it in a refusal too: the blank run.
#[derive(Drop)]
pub struct UptoBegun {
    pub answer: Result<(), Refusal>,
    pub run: UptoRun,
}

// A diagram given: its size, the length of its word, and the branch visits so far.
#[derive(Clone, Copy)]
pub struct UptoGiven {
    pub size: u16,
    pub length: u16,
    pub visits: u64,
}

// What a step answers: None after the last diagram. The run is not inside the Result, because UptoStepPromise fixes it in a refusal too: the run that
// was lent.
#[derive(Drop)]
pub struct UptoStepped {
    pub answer: Result<Option<UptoGiven>, Refusal>,
    pub run: UptoRun,
}
