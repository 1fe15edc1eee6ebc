// What a take answers, writes and alters, found from the lent parts of a book: its heads and its three lists.
#![tactic(auto)]

ghost use Rattle.book.specs.Taken.{TakePromise};
ghost use Rattle.book.specs.Changes.{changed, Placed};
ghost use Rattle.book_entries.specs.Entries.{book_with, Full};
ghost use Rattle.book_decisions_take.specs.Takes.{GivenOf};

use book::{Change, Choice, Heads, Taken};
use book_shares::entry;
use book_standing::ask;

// Writes the diagram at the next position of share j, if the lists have room.
fn given(
    h: Heads,
    j: u64,
    position: u64,
    tick: u64,
    s0: &mut [u16],
    s1: &mut [u16],
    word: &mut [u16],
) -> Choice<Taken>
    ensures { GivenOf h.size j position tick s0.old s1.old word.old result.answer result.change
        s0.new s1.new word.new }
{
    match listing_ranking::diagram_at(h.size, position, s0, s1, word) {
        Err(refusal) => Choice {
            answer: Err(refusal),
            change: Change::Nothing,
        },
        Ok(m) => Choice {
            answer: Ok(Taken {
                share: j,
                position,
                length: m as u64,
            }),
            change: Change::Latest(tick),
        },
    }
}

pub fn take<'a>(
    h: Heads,
    nexts: &'a [u64],
    tickets: &'a [u64],
    expiries: &'a [u64],
    tick: u64,
    ticket: u64,
    s0: &mut [u16],
    s1: &mut [u16],
    word: &mut [u16],
) -> Choice<Taken>
    requires { Full nexts.now tickets.now expiries.now }
    ensures { TakePromise (book_with h nexts.now tickets.now expiries.now) tick ticket
        s0.old s1.old word.old result.answer
        (changed (book_with h nexts.now tickets.now expiries.now) result.change) s0.new s1.new word.new
        × Placed result.change }
{
    match ask(h, nexts, tickets, expiries, tick, ticket) {
        Err(refusal) => Choice {
            answer: Err(refusal),
            change: Change::Nothing,
        },
        Ok(j) => given(h, j, entry(nexts, j), tick, s0, s1, word),
    }
}
