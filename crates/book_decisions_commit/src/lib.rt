// What a commit answers and alters, found from the lent parts of a book: its heads and its three lists.
#![tactic(auto)]

ghost use Rattle.std.specs.Prelude.{◌≡◌, cond, List, ℕ, length};
ghost use Rattle.lists.specs.Ranges.{OneTo};
ghost use Rattle.book.specs.Changes.{changed, Placed};
ghost use Rattle.book.specs.Calls.{moved_to};
ghost use Rattle.book_entries.specs.Entries.{book_with, Full};
ghost use Rattle.book_decisions_commit.specs.Commits.{CommitOf};

use book::{Change, Choice, Heads};
use book_shares::{entry, past};
use book_standing::ask;
use refusals::Refusal;

// An entry of a share, 0 where its ticket has ended.
fn unless_ended(ended: bool, x: u64) -> u64
    ensures { result ≡ cond ended 0 x }
{
    if ended {
        return 0;
    }
    x
}

// Share j goes on at a position; past its last position its ticket ends. Of the book's lists it looks at two, so this is said of any next positions.
pub fn moved_to<'a>(
    h: Heads,
    tickets: &'a [u64],
    expiries: &'a [u64],
    tick: u64,
    j: u64,
    position: u64,
) -> Change
    requires { OneTo 50 h.size × OneTo 32 h.shares × OneTo 32 j × (length tickets.now ≡ 32) × (length expiries.now ≡ 32) }
    ensures { ((nexts : List ℕ) → length nexts ≡ 32 → changed (book_with h nexts tickets.now expiries.now) result
        ≡ moved_to (book_with h nexts tickets.now expiries.now) tick j position)
        × Placed result }
{
    let ended = past(h.size, h.shares, j, position);
    Change::Entries {
        latest: tick,
        issued: h.issued,
        share: j,
        next: position,
        ticket: unless_ended(ended, entry(tickets, j)),
        expiry: unless_ended(ended, entry(expiries, j)),
    }
}

pub fn commit<'a>(
    h: Heads,
    nexts: &'a [u64],
    tickets: &'a [u64],
    expiries: &'a [u64],
    tick: u64,
    ticket: u64,
    position: u64,
) -> Choice<()>
    requires { Full nexts.now tickets.now expiries.now }
    ensures { CommitOf (book_with h nexts.now tickets.now expiries.now) tick ticket position result.answer result.change }
{
    match ask(h, nexts, tickets, expiries, tick, ticket) {
        Err(refusal) => Choice {
            answer: Err(refusal),
            change: Change::Nothing,
        },
        Ok(j) => {
            if entry(nexts, j) != position {
                return Choice {
                    answer: Err(Refusal::PositionNotDue),
                    change: Change::Nothing,
                };
            }
            Choice {
                answer: Ok(()),
                change: moved_to(h, tickets, expiries, tick, j, position + 1),
            }
        }
    }
}
