// Whether each ticket stands at one share only. Tickets are told apart by their remainders modulo 128: where no two remainders are equal, no
// two tickets are. Only where two are equal is each ticket compared with all before it.
#![tactic(auto)]

ghost use Rattle.std.specs.Prelude.{◌≡◌, true, cond, suc, ◌+◌, ◌%◌, ◌<◌, ◌≤◌, eqb, length};
ghost use Rattle.lists.specs.Ranges.{every};
ghost use Rattle.book_tickets.specs.Tickets.{stands_once};

use book_connectives::{both, either, not};

// Where the ticket t of the share at place i has its mark: at its remainder. A share without a ticket has a place of its own, so that no
// two of these clash.
fn mark_place(t: u64, i: usize) -> usize
    requires { i < 32 }
    ensures { (result < 160) × (result ≡ cond (eqb t 0) (128 + i) (t % 128)) }
{
    if t == 0 {
        return 128 + i;
    }
    (t % 128) as usize
}

// No two of the first k tickets have the same remainder, so that no two are equal. Clashes are summed up, without a branch on any ticket.
pub fn tickets_apart(ticket: &[u64], k: usize) -> bool
    requires { (k ≤ 32) × (length ticket.now ≡ 32) }
    ensures { result ≡ true → every k (stands_once ticket.now) ≡ true }
{
    let mut marks = [0u8; 160];
    let mut clashes: u8 = 0;
    for i in 0..k {
        let place = mark_place(ticket[i], i);
        clashes = clashes + marks[place];
        marks[place] = 1;
    }
    clashes == 0
}

// The ticket at place i, if there is one, stands at no place before. Without an early end, so that several are compared at once.
fn ticket_once(ticket: &[u64], i: usize) -> bool
    requires { (i < 32) × (length ticket.now ≡ 32) }
    ensures { result ≡ stands_once ticket.now (suc i) }
{
    let t = ticket[i];
    let mut again = false;
    for m in 0..i {
        again = either(again, ticket[m] == t);
    }
    either(t == 0, not(again))
}

// Each of the first k tickets is compared with all before it.
pub fn tickets_once(ticket: &[u64], k: usize) -> bool
    requires { (k ≤ 32) × (length ticket.now ≡ 32) }
    ensures { result ≡ every k (stands_once ticket.now) }
{
    let mut once = true;
    for i in 0..k {
        once = both(ticket_once(ticket, i), once);
    }
    once
}
