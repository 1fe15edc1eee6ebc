// Where a ticket stands, and what take, commit and release check first.
#![tactic(auto)]

ghost use Rattle.std.specs.Prelude.{◌≡◌, List, ℕ, ◌≤◌, length};
ghost use Rattle.book.specs.Shares.{holder};
ghost use Rattle.book_entries.specs.Entries.{book_with, Full};
ghost use Rattle.book_standing.specs.Ask.{AskPromise};

use book::Heads;
use book_heads::tick_in;
use book_shares::entry;
use book_validity::valid;
use refusals::Refusal;

// The share where the ticket stands, 0 where it stands at none.
fn holder(h: Heads, tickets: &[u64], ticket: u64) -> u64
    requires { (h.shares ≤ 32) × (length tickets.now ≡ 32) }
    ensures { (p e : List ℕ) → result ≡ holder (book_with h p tickets.now e) ticket }
{
    if ticket == 0 {
        return 0;
    }
    for i in (0..h.shares).rev() {
        if tickets[i as usize] == ticket {
            return i + 1;
        }
    }
    0
}

// The share where the ticket stands and has not lapsed, or 50, 52, 58 or 59.
pub fn ask<'a>(
    h: Heads,
    nexts: &'a [u64],
    tickets: &'a [u64],
    expiries: &'a [u64],
    tick: u64,
    ticket: u64,
) -> Result<u64, Refusal>
    requires { Full nexts.now tickets.now expiries.now }
    ensures { AskPromise (book_with h nexts.now tickets.now expiries.now) tick ticket result }
{
    if !valid(h, nexts, tickets, expiries) {
        return Err(Refusal::BookNotValid);
    }
    if !tick_in(h.latest, tick) {
        return Err(Refusal::TickOutOfRange);
    }
    let share = holder(h, tickets, ticket);
    if share == 0 {
        return Err(Refusal::NoSuchTicket);
    }
    if entry(expiries, share) <= tick {
        return Err(Refusal::TicketLapsed);
    }
    Ok(share)
}
