// Whether the entries of one share, and those after the shares', are those of a valid book. The functions are lent the book's lists, as
// slices, so that they may lie anywhere.
#![tactic(auto)]

ghost use Rattle.std.specs.Prelude.{◌≡◌, ℕ, suc, ◌+◌, ◌<◌, ◌≤◌, ◌^◌};
ghost use Rattle.book.specs.Shares.{last};
ghost use Rattle.book_entries.specs.Entries.{book_of, Full, own_valid, unused_after};

use book_connectives::both;
use book_entries_conditions::{expiry_in, place_valid};

// The share at place i, which holds the positions after `before` up to `end`. Its ticket is compared with no other.
pub fn own_valid<'a>(
    before: u64,
    end: u64,
    latest: u64,
    issued: u64,
    next: &'a [u64],
    ticket: &'a [u64],
    expiry: &'a [u64],
    i: usize,
) -> bool
    requires { (before < 2 ^ 56) × (end < 2 ^ 56) × (i < 32) × (latest < 2 ^ 48) × Full next.now ticket.now expiry.now }
    ensures { (n k : ℕ) → before ≡ last n k i → end ≡ last n k (i + 1)
        → result ≡ own_valid (book_of n k latest issued next.now ticket.now expiry.now) (suc i) }
{
    let t = ticket[i];
    if place_valid(before, end, next[i], t) {
        return both(t <= issued, expiry_in(t, expiry[i], latest));
    }
    false
}

// The entries after the first k are 0. Their digits are gathered and tested once, so that several are read at once.
pub fn rest_unused<'a>(next: &'a [u64], ticket: &'a [u64], expiry: &'a [u64], k: usize) -> bool
    requires { (k ≤ 32) × Full next.now ticket.now expiry.now }
    ensures { result ≡ unused_after next.now ticket.now expiry.now k }
{
    let mut any: u64 = 0;
    for i in k..32 {
        any = (next[i] | (ticket[i] | expiry[i])) | any;
    }
    any == 0
}
