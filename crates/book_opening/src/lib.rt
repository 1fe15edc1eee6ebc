// Opens a share book: the positions of one size are divided among its shares, each at its first position.
#![tactic(auto)]

ghost use Rattle.std.specs.Prelude.{◌≡◌, cond, ℕ, ◌<◌, ◌^◌, leb};
ghost use Rattle.lists.specs.Lists.{tabulate};
ghost use Rattle.lists.specs.Ranges.{OneTo};
ghost use Rattle.listing.specs.Listing.{count};
ghost use Rattle.book.specs.Shares.{first};
ghost use Rattle.book.specs.Calls.{opened, open_answer, open_book};

use book::{Book, Done};
use book_connectives::among;
use book_shares::{count_of, last_of};
use diagrams::Diagram;
use refusals::Refusal;

// The first positions of shares 1..k; 0 for the unused ones.
fn firsts(total: u64, k: u64) -> [u64; 32]
    requires { (total < 2 ^ 50) × OneTo 32 k }
    ensures { (n : ℕ) → total ≡ count n → result ≡ tabulate (λ j. cond (leb j k) (first n k j) 0) 32 }
{
    let mut next: [u64; 32] = [0; 32];
    for i in 0..k {
        next[i as usize] = last_of(total, k, i) + 1;
    }
    next
}

fn opened(size: u64, k: u64) -> Book
    requires { OneTo 50 size × OneTo 32 k }
    ensures { result ≡ opened size k }
{
    let next = firsts(count_of(size), k);
    let none: [u64; 32] = [0; 32];
    Book {
        size,
        shares: k,
        latest: 0,
        issued: 0,
        next,
        ticket: none,
        expiry: none,
    }
}

pub fn open_core(b: Book, size: u64, k: u64) -> Done<()>
    ensures { (result.answer ≡ open_answer size k) × (result.book ≡ open_book b size k) }
{
    if !among(Diagram::MAX_LISTED as u64, size) {
        return Done {
            answer: Err(Refusal::ListedSizeOutOfRange),
            book: b,
        };
    }
    if !among(32, k) {
        return Done {
            answer: Err(Refusal::SharesOutOfRange),
            book: b,
        };
    }
    Done {
        answer: Ok(()),
        book: opened(size, k),
    }
}
