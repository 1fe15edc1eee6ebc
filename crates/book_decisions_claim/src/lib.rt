// What a claim and a release answer and alter, found from the lent parts of a book: its heads and its three lists.
#![tactic(auto)]

ghost use Rattle.book_entries.specs.Entries.{book_with, Full};
ghost use Rattle.book_decisions_claim.specs.Claims.{ClaimOf, ReleaseOf};

use book::{Change, Choice, Heads};
use book_claims::claimable;
use book_shares::entry;
use book_standing::ask;

pub fn claim<'a>(
    h: Heads,
    nexts: &'a [u64],
    tickets: &'a [u64],
    expiries: &'a [u64],
    tick: u64,
    share: u64,
    length: u64,
) -> Choice<u64>
    requires { Full nexts.now tickets.now expiries.now }
    ensures { ClaimOf (book_with h nexts.now tickets.now expiries.now) tick share length result.answer result.change }
{
    match claimable(h, nexts, tickets, expiries, tick, share, length) {
        Err(refusal) => Choice {
            answer: Err(refusal),
            change: Change::Nothing,
        },
        Ok(()) => {
            let ticket = h.issued + 1;
            Choice {
                answer: Ok(ticket),
                change: Change::Entries {
                    latest: tick,
                    issued: ticket,
                    share,
                    next: entry(nexts, share),
                    ticket,
                    expiry: tick + length,
                },
            }
        }
    }
}

pub fn release<'a>(
    h: Heads,
    nexts: &'a [u64],
    tickets: &'a [u64],
    expiries: &'a [u64],
    tick: u64,
    ticket: u64,
) -> Choice<()>
    requires { Full nexts.now tickets.now expiries.now }
    ensures { ReleaseOf (book_with h nexts.now tickets.now expiries.now) tick ticket result.answer result.change }
{
    match ask(h, nexts, tickets, expiries, tick, ticket) {
        Err(refusal) => Choice {
            answer: Err(refusal),
            change: Change::Nothing,
        },
        Ok(j) => Choice {
            answer: Ok(()),
            change: Change::Entries {
                latest: tick,
                issued: h.issued,
                share: j,
                next: entry(nexts, j),
                ticket: 0,
                expiry: 0,
            },
        },
    }
}
