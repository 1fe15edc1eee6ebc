// The conditions of a valid book on a share's next position, its ticket and its expiry.
#![tactic(auto)]

ghost use Rattle.std.specs.Prelude.{◌≡◌, ◌<◌, ◌^◌};
ghost use Rattle.book_entries_conditions.specs.Conditions.{placed, timely};

use book_connectives::{both, either, implies, not};

// Of a share that holds the positions after `before` up to `end`: its next position p is one of them or just past them, and past them
// it has no ticket.
pub fn place_valid(before: u64, end: u64, p: u64, t: u64) -> bool
    requires { (before < 2 ^ 56) × (end < 2 ^ 56) }
    ensures { result ≡ placed before end p t }
{
    let within = both(before + 1 <= p, p <= end + 1);
    both(within, implies(end < p, t == 0))
}

// Without a ticket the expiry is 0; it lies at most 65,535 beyond the latest tick.
pub fn expiry_in(t: u64, e: u64, latest: u64) -> bool
    requires { latest < 2 ^ 48 }
    ensures { result ≡ timely t e latest }
{
    both(either(e == 0, not(t == 0)), e <= latest + 65535)
}
