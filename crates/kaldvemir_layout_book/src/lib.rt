// The book as 100 numbers.
#![tactic(auto)]

ghost use Rattle.std.specs.Prelude.{◌≡◌, ◌+◌, ◌≤◌, length};
ghost use Rattle.std.proofs.Math.Seq.{paste};
ghost use Rattle.book.specs.Changes.{heads_of, changed, Placed};
ghost use Rattle.kaldvemir_layout_book.specs.Layout.{book_in, book_numbers};

use book::{Book, Change, Heads};

// Puts 32 numbers in their place.
fn put_part(numbers: &mut [u64; 100], from: usize, list: &[u64; 32])
    requires { (length numbers.old ≡ 100) × (length list.now ≡ 32) × (from + 32 ≤ 100) }
    ensures { numbers.new ≡ paste numbers.old from list.now 32 }
{
    for i in 0..32 {
        numbers[from + i] = list[i];
    }
}

// Puts a book in the place of the one that the numbers are.
pub fn put_back(numbers: &mut [u64; 100], b: Book)
    requires { length numbers.old ≡ 100 }
    ensures { numbers.new ≡ book_numbers b }
{
    numbers[0] = b.size;
    numbers[1] = b.shares;
    numbers[2] = b.latest;
    numbers[3] = b.issued;
    let next = b.next;
    let ticket = b.ticket;
    let expiry = b.expiry;
    put_part(numbers, 4, &next);
    put_part(numbers, 36, &ticket);
    put_part(numbers, 68, &expiry);
}

// The numbers of the book apart from its lists.
pub fn heads(numbers: &[u64]) -> Heads
    requires { length numbers.now ≡ 100 }
    ensures { result ≡ heads_of (book_in numbers.now) }
{
    Heads {
        size: numbers[0],
        shares: numbers[1],
        latest: numbers[2],
        issued: numbers[3],
    }
}

// The three lists of the book where they lie: the next positions of the 32 shares, their tickets, their expiries.
pub fn nexts<'a>(numbers: &'a [u64]) -> &'a [u64]
    requires { length numbers.now ≡ 100 }
    ensures { (result.now ≡ (book_in numbers.now).next) × (length result.now ≡ 32) }
{
    &numbers[4..36]
}

pub fn tickets<'a>(numbers: &'a [u64]) -> &'a [u64]
    requires { length numbers.now ≡ 100 }
    ensures { (result.now ≡ (book_in numbers.now).ticket) × (length result.now ≡ 32) }
{
    &numbers[36..68]
}

pub fn expiries<'a>(numbers: &'a [u64]) -> &'a [u64]
    requires { length numbers.now ≡ 100 }
    ensures { (result.now ≡ (book_in numbers.now).expiry) × (length result.now ≡ 32) }
{
    &numbers[68..100]
}

// Carries out a change: only the numbers that it alters are written.
pub fn change(numbers: &mut [u64; 100], c: Change)
    requires { (length numbers.old ≡ 100) × Placed c }
    ensures { numbers.new ≡ book_numbers (changed (book_in numbers.old) c) }
{
    match c {
        Change::Nothing => {}
        Change::Latest(tick) => {
            numbers[2] = tick;
        }
        Change::Entries {
            latest,
            issued,
            share,
            next,
            ticket,
            expiry,
        } => {
            let index = share as usize;
            numbers[2] = latest;
            numbers[3] = issued;
            numbers[3 + index] = next;
            numbers[35 + index] = ticket;
            numbers[67 + index] = expiry;
        }
    }
}
