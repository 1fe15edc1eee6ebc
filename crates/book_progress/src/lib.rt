// What the report counts, of a book whose heads are those of a valid one.
#![tactic(auto)]

ghost use Rattle.std.specs.Prelude.{◌≡◌, List, ℕ, length};
ghost use Rattle.lists.specs.Ranges.{OneTo};
ghost use Rattle.book.specs.Shares.{committed, complete};
ghost use Rattle.book_entries.specs.Entries.{book_with};
ghost use Rattle.book_progress.specs.Progress.{NextIn};

use book::Heads;
use book_shares::{count_of, last_of};

// The number of committed positions: of each share, those from its first to the one before its next.
pub fn committed(h: Heads, nexts: &[u64]) -> u64
    requires { OneTo 50 h.size × OneTo 32 h.shares × (length nexts.now ≡ 32) × NextIn h nexts.now }
    ensures { (t e : List ℕ) → result ≡ committed (book_with h nexts.now t e) }
{
    let total = count_of(h.size);
    let mut sum: u64 = 0;
    for i in 0..h.shares {
        let index = i as usize;
        sum += nexts[index] - (last_of(total, h.shares, i) + 1);
    }
    sum
}

// Every share's next position is past its last.
pub fn complete(h: Heads, nexts: &[u64]) -> bool
    requires { OneTo 50 h.size × OneTo 32 h.shares × (length nexts.now ≡ 32) }
    ensures { (t e : List ℕ) → result ≡ complete (book_with h nexts.now t e) }
{
    let total = count_of(h.size);
    for i in 0..h.shares {
        let index = i as usize;
        if nexts[index] <= last_of(total, h.shares, i + 1) {
            return false;
        }
    }
    true
}
