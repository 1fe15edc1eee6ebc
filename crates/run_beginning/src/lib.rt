// The beginning of a run. It refuses 31, a size outside 1..50.
#![tactic(auto)]

ghost use Rattle.std.specs.Prelude.{◌≡◌, true, false, replicate};
ghost use Rattle.lists.specs.Ranges.{OneTo};
ghost use Rattle.run_answers.specs.Promises.{BeginPromise};

use diagrams::Diagram;
use refusals::Refusal;
use run_answers::{Begun, Run};

// A run that is at no diagram.
pub fn empty(size: u64, stage: u64) -> Run
    ensures { result ≡ record { size = size; stage = stage; length = 0; items = replicate 51 0 } }
{
    Run {
        size,
        stage,
        length: 0,
        items: [0u16; Diagram::MAX_LISTED + 1],
    }
}

// Whether diagrams of this size are listed.
pub fn listed(n: u64) -> bool
    ensures { (result ≡ true → OneTo 50 n) × (result ≡ false → ¬ OneTo 50 n) }
{
    if n < 1 {
        return false;
    }
    n as usize <= Diagram::MAX_LISTED
}

// A run of size n, before its first diagram.
pub fn begin(n: u64) -> Begun
    ensures { BeginPromise n result.run result.answer }
{
    if listed(n) {
        return Begun {
            answer: Ok(()),
            run: empty(n, 0),
        };
    }
    Begun {
        answer: Err(Refusal::ListedSizeOutOfRange),
        run: empty(0, 0),
    }
}
