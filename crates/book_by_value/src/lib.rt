// The operations of the share book for a program that holds its book by value: the book stands in a local, is lent to the operation (crate
// book_lent), and comes back with the answer.
#![tactic(auto)]

ghost use Rattle.std.specs.Prelude.{◌≡◌};
ghost use Rattle.book.specs.Calls.{open_answer, open_book, claim_answer, claim_book, commit_answer, commit_book, commit_range_answer, commit_range_book, release_answer, release_book, report_answer};
ghost use Rattle.book.specs.Taken.{TakePromise};

use book_lent::{Book, Done, Progress, Taken};
use refusals::Refusal;

pub fn open(mut b: Book, size: u64, k: u64) -> Done<()>
    ensures { (result.answer ≡ open_answer size k) × (result.book ≡ open_book b size k) }
{
    let a = book_lent::open(&mut b, size, k);
    Done { answer: a, book: b }
}

pub fn claim(mut b: Book, tick: u64, share: u64, length: u64) -> Done<u64>
    ensures { (result.answer ≡ claim_answer b tick share length) × (result.book ≡ claim_book b tick share length) }
{
    let a = book_lent::claim(&mut b, tick, share, length);
    Done { answer: a, book: b }
}

pub fn take(
    mut b: Book,
    tick: u64,
    ticket: u64,
    s0: &mut [u16],
    s1: &mut [u16],
    word: &mut [u16],
) -> Done<Taken>
    ensures { TakePromise b tick ticket s0.old s1.old word.old result.answer result.book s0.new s1.new word.new }
{
    let a = book_lent::take(&mut b, tick, ticket, s0, s1, word);
    Done { answer: a, book: b }
}

pub fn commit(mut b: Book, tick: u64, ticket: u64, position: u64) -> Done<()>
    ensures { (result.answer ≡ commit_answer b tick ticket position) × (result.book ≡ commit_book b tick ticket position) }
{
    let a = book_lent::commit(&mut b, tick, ticket, position);
    Done { answer: a, book: b }
}

pub fn commit_range(mut b: Book, tick: u64, ticket: u64, first: u64, last: u64) -> Done<()>
    ensures { (result.answer ≡ commit_range_answer b tick ticket first last) × (result.book ≡ commit_range_book b tick ticket first last) }
{
    let a = book_lent::commit_range(&mut b, tick, ticket, first, last);
    Done { answer: a, book: b }
}

pub fn release(mut b: Book, tick: u64, ticket: u64) -> Done<()>
    ensures { (result.answer ≡ release_answer b tick ticket) × (result.book ≡ release_book b tick ticket) }
{
    let a = book_lent::release(&mut b, tick, ticket);
    Done { answer: a, book: b }
}

pub fn report(b: Book) -> Result<Progress, Refusal>
    ensures { result ≡ report_answer b }
{
    book_lent::report(&b)
}
