// The beginning of a run through all sizes up to a bound. It refuses 31, a bound outside 1..50.
#![tactic(auto)]

ghost use Rattle.std.specs.Prelude.{◌≡◌, replicate};
ghost use Rattle.upto_answers.specs.Promises.{UptoBeginPromise};

use diagrams::Diagram;
use refusals::Refusal;
use run_beginning::listed;
use upto_answers::{UptoBegun, UptoRun};

// A run that is at no diagram.
pub fn empty(bound: u64, stage: u64, visits: u64) -> UptoRun
    ensures { result ≡ record { bound = bound; stage = stage; length = 0; visits = visits; items = replicate 51 0 } }
{
    UptoRun {
        bound,
        stage,
        length: 0,
        visits,
        items: [0u16; Diagram::MAX_LISTED + 1],
    }
}

// A run through the sizes 1 to n, before its first diagram.
pub fn begin(n: u64) -> UptoBegun
    ensures { UptoBeginPromise n result.run result.answer }
{
    if listed(n) {
        return UptoBegun {
            answer: Ok(()),
            run: empty(n, 0, 0),
        };
    }
    UptoBegun {
        answer: Err(Refusal::ListedSizeOutOfRange),
        run: empty(0, 0, 0),
    }
}
