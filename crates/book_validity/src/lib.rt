// Whether a book is valid: condition 50 applies to it exactly if `valid` says no. The functions are lent the book's lists, as slices, so
// that they may lie anywhere.
#![tactic(auto)]

ghost use Rattle.std.specs.Prelude.{◌≡◌, ◌<◌, ◌^◌};
ghost use Rattle.lists.specs.Ranges.{OneTo, every};
ghost use Rattle.listing.specs.Listing.{count};
ghost use Rattle.book.specs.Valid.{entries_valid, valid};
ghost use Rattle.book_entries.specs.Entries.{book_with, Full, own_valid};

use book::Heads;
use book_connectives::both;
use book_entries::{own_valid, rest_unused};
use book_heads::heads_valid;
use book_shares::{Ends, count_of, onward};
use book_tickets::{tickets_apart, tickets_once};

// Share after share, the end of each found from the one before: a division for each would cost more than all the rest.
fn shares_valid<'a>(
    h: Heads,
    total: u64,
    next: &'a [u64],
    ticket: &'a [u64],
    expiry: &'a [u64],
) -> bool
    requires { (total ≡ count h.size) × (total < 2 ^ 50) × OneTo 32 h.shares × (h.latest < 2 ^ 48) × Full next.now ticket.now expiry.now }
    ensures { result ≡ every h.shares (own_valid (book_with h next.now ticket.now expiry.now)) }
{
    let k = h.shares;
    let step = total / k;
    let part = total % k;
    let mut before: u64 = 0;
    let mut rest: u64 = 0;
    for i in 0..k as usize {
        let ends = onward(Ends { last: before, rest }, step, part, k);
        let end = ends.last;
        if !own_valid(before, end, h.latest, h.issued, next, ticket, expiry, i) {
            return false;
        }
        before = end;
        rest = ends.rest;
    }
    true
}

// Tickets that are not apart may differ all the same: then they are compared.
fn entries_valid<'a>(
    h: Heads,
    total: u64,
    next: &'a [u64],
    ticket: &'a [u64],
    expiry: &'a [u64],
) -> bool
    requires { (total ≡ count h.size) × (total < 2 ^ 50) × OneTo 32 h.shares × (h.latest < 2 ^ 48) × Full next.now ticket.now expiry.now }
    ensures { result ≡ entries_valid (book_with h next.now ticket.now expiry.now) }
{
    if !shares_valid(h, total, next, ticket, expiry) {
        return false;
    }
    let k = h.shares as usize;
    let unused = rest_unused(next, ticket, expiry, k);
    let apart = tickets_apart(ticket, k);
    if apart {
        return unused;
    }
    both(unused, tickets_once(ticket, k))
}

pub fn valid<'a>(h: Heads, next: &'a [u64], ticket: &'a [u64], expiry: &'a [u64]) -> bool
    requires { Full next.now ticket.now expiry.now }
    ensures { result ≡ valid (book_with h next.now ticket.now expiry.now) }
{
    if heads_valid(h) {
        return entries_valid(h, count_of(h.size), next, ticket, expiry);
    }
    false
}
