// The share book's operations on a book that lies with the caller as 100 numbers: an operation looks at them where they are, and writes those that
// it alters. Take and commit are in crates kaldvemir_book_take and kaldvemir_book_commit.
#![tactic(auto)]

ghost use Rattle.std.specs.Prelude.{◌≡◌};
ghost use Rattle.book.specs.Calls.{open_answer, open_book, claim_answer, claim_book, release_answer, release_book, report_answer};
ghost use Rattle.kaldvemir_layout_book.specs.Layout.{book_in, book_numbers};

use book::{Book, Progress};
use book_opening::open_core;
use kaldvemir_layout_book::{change, expiries, heads, nexts, put_back, tickets};
use refusals::Refusal;

// A book of zeros, for open to decide on: it tests nothing of the book that it is to alter.
fn blank() -> Book {
    let none = [0u64; 32];
    Book {
        size: 0,
        shares: 0,
        latest: 0,
        issued: 0,
        next: none,
        ticket: none,
        expiry: none,
    }
}

// Nothing of the lent book is read, and it is written only where the opening is accepted.
pub fn open(book: &mut [u64; 100], size: u64, shares: u64) -> Result<(), Refusal>
    ensures { (result ≡ open_answer size shares)
        × (book.new ≡ book_numbers (open_book (book_in book.old) size shares)) }
{
    let done = open_core(blank(), size, shares);
    let opened = done.book;
    // the lent numbers as a list, which says that they are 100; none is looked at
    let numbers: &[u64] = book;
    match done.answer {
        Err(refusal) => Err(refusal),
        Ok(()) => {
            put_back(book, opened);
            Ok(())
        }
    }
}

pub fn claim(book: &mut [u64; 100], tick: u64, share: u64, length: u64) -> Result<u64, Refusal>
    ensures { (result ≡ claim_answer (book_in book.old) tick share length)
        × (book.new ≡ book_numbers (claim_book (book_in book.old) tick share length)) }
{
    let numbers: &[u64] = book;
    let choice = book_decisions::claim(
        heads(numbers),
        nexts(numbers),
        tickets(numbers),
        expiries(numbers),
        tick,
        share,
        length,
    );
    let answer = choice.answer;
    let altered = choice.change;
    change(book, altered);
    answer
}

pub fn release(book: &mut [u64; 100], tick: u64, ticket: u64) -> Result<(), Refusal>
    ensures { (result ≡ release_answer (book_in book.old) tick ticket)
        × (book.new ≡ book_numbers (release_book (book_in book.old) tick ticket)) }
{
    let numbers: &[u64] = book;
    let choice = book_decisions::release(
        heads(numbers),
        nexts(numbers),
        tickets(numbers),
        expiries(numbers),
        tick,
        ticket,
    );
    let answer = choice.answer;
    let altered = choice.change;
    change(book, altered);
    answer
}

pub fn report(book: &[u64; 100]) -> Result<Progress, Refusal>
    ensures { result ≡ report_answer (book_in book.now) }
{
    let numbers: &[u64] = book;
    book_decisions::report(
        heads(numbers),
        nexts(numbers),
        tickets(numbers),
        expiries(numbers),
    )
}
