// Tests of a book's numbers apart from its lists: whether they are those of a valid book, and whether a tick may come next.
#![tactic(auto)]

ghost use Rattle.std.specs.Prelude.{◌≡◌, ◌^◌, leb, ltb};
ghost use Rattle.book.specs.Valid.{both};
ghost use Rattle.book_heads.specs.Heads.{heads_valid};

use book::Heads;
use book_connectives::{among, both};
use diagrams::Diagram;

// At most 65,535 tickets issued, and the latest tick below 2^48.
fn counters_in(issued: u64, latest: u64) -> bool
    ensures { result ≡ both (leb issued 65535) (ltb latest (2 ^ 48)) }
{
    both(issued <= 65535, latest < 281474976710656)
}

pub fn heads_valid(h: Heads) -> bool
    ensures { result ≡ heads_valid h }
{
    let sized = both(
        among(Diagram::MAX_LISTED as u64, h.size),
        among(32, h.shares),
    );
    both(sized, counters_in(h.issued, h.latest))
}

// The tick is neither below the latest nor 2^48 and above.
pub fn tick_in(latest: u64, tick: u64) -> bool
    ensures { result ≡ both (leb latest tick) (ltb tick (2 ^ 48)) }
{
    both(latest <= tick, tick < 281474976710656)
}
