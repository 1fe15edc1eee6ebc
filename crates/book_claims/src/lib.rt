// What a claim is refused for.
#![tactic(auto)]

ghost use Rattle.std.specs.Prelude.{◌≡◌, true, eqb, leb};
ghost use Rattle.refusals.specs.Named.{answered};
ghost use Rattle.lists.specs.Ranges.{OneTo};
ghost use Rattle.book.specs.Valid.{both, valid};
ghost use Rattle.book.specs.Calls.{not, claim_number};
ghost use Rattle.book_entries.specs.Entries.{book_with, Full};
ghost use Rattle.book_claims.specs.Claims.{share_number, place_number};

use book::Heads;
use book_connectives::{among, both, not};
use book_heads::tick_in;
use book_shares::{entry, past};
use book_validity::valid;
use refusals::Refusal;

// A ticket t that lapses at e is one, and has not lapsed.
fn held(t: u64, e: u64, tick: u64) -> bool
    ensures { result ≡ both (not (eqb t 0)) (not (leb e tick)) }
{
    both(not(t == 0), not(e <= tick))
}

// 55, 56 or 57 for a share of a valid book.
fn share_free<'a>(
    h: Heads,
    nexts: &'a [u64],
    tickets: &'a [u64],
    expiries: &'a [u64],
    tick: u64,
    share: u64,
) -> Result<(), Refusal>
    requires { (valid (book_with h nexts.now tickets.now expiries.now) ≡ true) × OneTo h.shares share × Full nexts.now tickets.now expiries.now }
    ensures { result ≡ answered (share_number (book_with h nexts.now tickets.now expiries.now) tick share) tt }
{
    if past(h.size, h.shares, share, entry(nexts, share)) {
        return Err(Refusal::ShareFinished);
    }
    if held(entry(tickets, share), entry(expiries, share), tick) {
        return Err(Refusal::ShareHeld);
    }
    if h.issued < 65535 {
        return Ok(());
    }
    Err(Refusal::TicketsSpent)
}

// 53 to 57 for a valid book.
fn place_free<'a>(
    h: Heads,
    nexts: &'a [u64],
    tickets: &'a [u64],
    expiries: &'a [u64],
    tick: u64,
    share: u64,
    length: u64,
) -> Result<(), Refusal>
    requires { (valid (book_with h nexts.now tickets.now expiries.now) ≡ true) × Full nexts.now tickets.now expiries.now }
    ensures { result ≡ answered (place_number (book_with h nexts.now tickets.now expiries.now) tick share length) tt }
{
    if !among(h.shares, share) {
        return Err(Refusal::ShareOutOfRange);
    }
    if !among(65535, length) {
        return Err(Refusal::LengthOutOfRange);
    }
    share_free(h, nexts, tickets, expiries, tick, share)
}

// Whether a claim may be granted, or 50 and 52 to 57.
pub fn claimable<'a>(
    h: Heads,
    nexts: &'a [u64],
    tickets: &'a [u64],
    expiries: &'a [u64],
    tick: u64,
    share: u64,
    length: u64,
) -> Result<(), Refusal>
    requires { Full nexts.now tickets.now expiries.now }
    ensures { result ≡ answered (claim_number (book_with h nexts.now tickets.now expiries.now) tick share length) tt }
{
    if !valid(h, nexts, tickets, expiries) {
        return Err(Refusal::BookNotValid);
    }
    if !tick_in(h.latest, tick) {
        return Err(Refusal::TickOutOfRange);
    }
    place_free(h, nexts, tickets, expiries, tick, share, length)
}
