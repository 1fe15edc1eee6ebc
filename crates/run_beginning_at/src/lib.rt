// The beginning of a run at a position: the run that has given the first p diagrams, found by unranking, without walking to it. It refuses
// 31, a size outside 1..50; then 32, a position above the count.
#![tactic(auto)]

ghost use Rattle.std.specs.Prelude.{◌≡◌};
ghost use Rattle.lists.specs.Ranges.{OneTo};
ghost use Rattle.listing.specs.Listing.{count};
ghost use Rattle.listing.specs.Position.{word_at};
ghost use Rattle.run_answers.specs.Promises.{at_word, BeginAtPromise};

use diagrams::Diagram;
use listing_places::count_of;
use listing_places::unranking::word_at;
use refusals::Refusal;
use run_answers::{Begun, Run};
use run_beginning::{empty, listed};

// The run that is at the diagram at a position that there is.
fn at_position(n: u64, p: u64) -> Run
    requires { OneTo 50 n × OneTo (count n) p }
    ensures { result ≡ at_word n (word_at n p) }
{
    let mut items = [0u16; Diagram::MAX_LISTED + 1];
    let length = word_at(n, p, &mut items);
    Run {
        size: n,
        stage: 1,
        length: length as u64,
        items,
    }
}

// A run of size n that has given p diagrams. At position 0 it is before its first.
pub fn begin_at(n: u64, p: u64) -> Begun
    ensures { BeginAtPromise n p result.run result.answer }
{
    if !listed(n) {
        return Begun {
            answer: Err(Refusal::ListedSizeOutOfRange),
            run: empty(0, 0),
        };
    }
    if count_of(n) < p {
        return Begun {
            answer: Err(Refusal::PositionOutOfRange),
            run: empty(0, 0),
        };
    }
    if p == 0 {
        return Begun {
            answer: Ok(()),
            run: empty(n, 0),
        };
    }
    Begun {
        answer: Ok(()),
        run: at_position(n, p),
    }
}
