// A run: what it carries, and what its beginning and its step answer. The value of a step's answer is in specs/Answers, the runs of a size and what
// the operations promise in specs/Promises.
#![tactic(auto)]

use diagrams::Diagram;
use refusals::Refusal;

// What a run carries: its size, whether it is fresh (0), at a diagram (1) or finished (2), and the word under construction; unused items are 0.
#[derive(Clone, Copy)]
pub struct Run {
    pub size: u64,
    pub stage: u64,
    pub length: u64,
    pub items: [u16; Diagram::MAX_LISTED + 1],
}

// What a beginning answers. The run is not inside the Result, because BeginPromise and BeginAtPromise fix it in a refusal too: the blank run.
#[derive(Drop)]
pub struct Begun {
    pub answer: Result<(), Refusal>,
    pub run: Run,
}

// What a step answers: the length of the word of the diagram given, None after the last. The run is not inside the Result, because StepPromise fixes
// it in a refusal too: the run that was lent.
#[derive(Drop)]
pub struct Stepped {
    pub answer: Result<Option<u16>, Refusal>,
    pub run: Run,
}
