// What a range of commits answers and alters, found from the lent parts of a book: its heads and its three lists. The two ends of the range tell it,
// so that the time does not grow with the range.
#![tactic(auto)]

ghost use Rattle.std.specs.Prelude.{◌≡◌, eqb, leb, length};
ghost use Rattle.refusals.specs.Named.{answered};
ghost use Rattle.lists.specs.Lists.{at};
ghost use Rattle.lists.specs.Ranges.{OneTo};
ghost use Rattle.book.specs.Shares as shares;
ghost use Rattle.book.specs.Calls.{unless};
ghost use Rattle.book_entries.specs.Entries.{book_with, Full};
ghost use Rattle.book_decisions_commit_range.specs.CommitRanges.{CommitRangeOf};

use book::{Change, Choice, Heads};
use book_decisions_commit::moved_to;
use book_shares::{entry, past};
use book_standing::ask;
use refusals::Refusal;

// What refuses the range at share j, where its ticket is good: 60, it is empty or does not begin at the share's next position; 58, it goes past
// the share's last position, where the ticket ends.
fn range_in(h: Heads, nexts: &[u64], j: u64, first: u64, last: u64) -> Result<(), Refusal>
    requires { OneTo 50 h.size × OneTo 32 h.shares × OneTo 32 j × (length nexts.now ≡ 32) }
    ensures { result ≡ answered (unless (leb first last) 60 (unless (eqb first (at nexts.now j)) 60 (unless (leb last (shares.last h.size h.shares j)) 58 0))) tt }
{
    if last < first {
        return Err(Refusal::PositionNotDue);
    }
    if entry(nexts, j) != first {
        return Err(Refusal::PositionNotDue);
    }
    if past(h.size, h.shares, j, last) {
        return Err(Refusal::NoSuchTicket);
    }
    Ok(())
}

pub fn commit_range<'a>(
    h: Heads,
    nexts: &'a [u64],
    tickets: &'a [u64],
    expiries: &'a [u64],
    tick: u64,
    ticket: u64,
    first: u64,
    last: u64,
) -> Choice<()>
    requires { Full nexts.now tickets.now expiries.now }
    ensures { CommitRangeOf (book_with h nexts.now tickets.now expiries.now) tick ticket first last result.answer result.change }
{
    match ask(h, nexts, tickets, expiries, tick, ticket) {
        Err(refusal) => Choice {
            answer: Err(refusal),
            change: Change::Nothing,
        },
        Ok(j) => match range_in(h, nexts, j, first, last) {
            Err(refusal) => Choice {
                answer: Err(refusal),
                change: Change::Nothing,
            },
            Ok(()) => Choice {
                answer: Ok(()),
                change: moved_to(h, tickets, expiries, tick, j, last + 1),
            },
        },
    }
}
