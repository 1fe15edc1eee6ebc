// The books that the operations leave.
ghost use Rattle.std.specs.Prelude.{◌≡◌};
ghost use Rattle.lists.specs.Ranges.{OneTo};
ghost use Rattle.book.specs.Calls.{entered, ticked};
ghost use Rattle.book.specs.Changes.{heads_of, changed, Placed};

use book::{Book, Change, Heads};

// The book with other entries at share j, and the tick kept as the latest.
fn entered(b: Book, tick: u64, issues: u64, j: u64, p: u64, t: u64, e: u64) -> Book
    requires { OneTo 32 j }
    ensures { result ≡ entered b tick issues j p t e }
{
    let mut b = b;
    let index = (j - 1) as usize;
    b.latest = tick;
    b.issued = issues;
    b.next[index] = p;
    b.ticket[index] = t;
    b.expiry[index] = e;
    b
}

// The book with that tick as the latest.
fn ticked(b: Book, tick: u64) -> Book
    ensures { result ≡ ticked b tick }
{
    let mut b = b;
    b.latest = tick;
    b
}

// The book with a change carried out.
pub fn changed(b: Book, c: Change) -> Book
    requires { Placed c }
    ensures { result ≡ changed b c }
{
    match c {
        Change::Nothing => b,
        Change::Latest(tick) => ticked(b, tick),
        Change::Entries {
            latest,
            issued,
            share,
            next,
            ticket,
            expiry,
        } => entered(b, latest, issued, share, next, ticket, expiry),
    }
}

// The numbers of a book apart from its lists.
pub fn heads(b: Book) -> Heads
    ensures { result ≡ heads_of b }
{
    Heads {
        size: b.size,
        shares: b.shares,
        latest: b.latest,
        issued: b.issued,
    }
}
