// What each operation answers and what it alters, found from the lent parts of a book: its heads and its three lists. A decision is
// carried out on a book by value, or on the numbers of a book in their place.
#![tactic(auto)]

ghost use Rattle.std.specs.Prelude.{◌≡◌};
ghost use Rattle.book.specs.Calls.{report_answer};
ghost use Rattle.book_entries.specs.Entries.{book_with, Full};

use book::{Heads, Progress};
pub use book_decisions_claim::{claim, release};
pub use book_decisions_commit::commit;
pub use book_decisions_commit_range::commit_range;
pub use book_decisions_take::take;
use book_progress::{committed, complete};
use book_validity::valid;
use refusals::Refusal;

pub fn report<'a>(
    h: Heads,
    nexts: &'a [u64],
    tickets: &'a [u64],
    expiries: &'a [u64],
) -> Result<Progress, Refusal>
    requires { Full nexts.now tickets.now expiries.now }
    ensures { result ≡ report_answer (book_with h nexts.now tickets.now expiries.now) }
{
    if !valid(h, nexts, tickets, expiries) {
        return Err(Refusal::BookNotValid);
    }
    Ok(Progress {
        committed: committed(h, nexts),
        complete: complete(h, nexts),
    })
}
