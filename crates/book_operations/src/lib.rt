// The operations of the share book on a book by value: each returns its answer with the book that it leaves. What it answers and alters
// is decided on the lent parts of the book.
#![tactic(auto)]

mod books;

ghost use Rattle.std.specs.Prelude.{◌≡◌};
ghost use Rattle.book.specs.Taken.{TakePromise};
ghost use Rattle.book.specs.Calls.{claim_answer, claim_book, commit_answer, commit_book, commit_range_answer, commit_range_book, release_answer, release_book, report_answer};

use book::{Book, Done, Progress, Taken};
pub use book_opening::open_core;
use books::{changed, heads};
use refusals::Refusal;

pub fn claim_core(b: Book, tick: u64, share: u64, length: u64) -> Done<u64>
    ensures { (result.answer ≡ claim_answer b tick share length) × (result.book ≡ claim_book b tick share length) }
{
    let h = heads(b);
    let choice = book_decisions::claim(h, &b.next, &b.ticket, &b.expiry, tick, share, length);
    let answer = choice.answer;
    let change = choice.change;
    Done {
        answer,
        book: changed(b, change),
    }
}

pub fn release_core(b: Book, tick: u64, ticket: u64) -> Done<()>
    ensures { (result.answer ≡ release_answer b tick ticket) × (result.book ≡ release_book b tick ticket) }
{
    let h = heads(b);
    let choice = book_decisions::release(h, &b.next, &b.ticket, &b.expiry, tick, ticket);
    let answer = choice.answer;
    let change = choice.change;
    Done {
        answer,
        book: changed(b, change),
    }
}

pub fn take_core(
    b: Book,
    tick: u64,
    ticket: u64,
    s0: &mut [u16],
    s1: &mut [u16],
    word: &mut [u16],
) -> Done<Taken>
    ensures { TakePromise b tick ticket s0.old s1.old word.old result.answer result.book s0.new s1.new word.new }
{
    let h = heads(b);
    let choice = book_decisions::take(h, &b.next, &b.ticket, &b.expiry, tick, ticket, s0, s1, word);
    let answer = choice.answer;
    let change = choice.change;
    Done {
        answer,
        book: changed(b, change),
    }
}

pub fn commit_core(b: Book, tick: u64, ticket: u64, position: u64) -> Done<()>
    ensures { (result.answer ≡ commit_answer b tick ticket position) × (result.book ≡ commit_book b tick ticket position) }
{
    let h = heads(b);
    let choice = book_decisions::commit(h, &b.next, &b.ticket, &b.expiry, tick, ticket, position);
    let answer = choice.answer;
    let change = choice.change;
    Done {
        answer,
        book: changed(b, change),
    }
}

pub fn commit_range_core(b: Book, tick: u64, ticket: u64, first: u64, last: u64) -> Done<()>
    ensures { (result.answer ≡ commit_range_answer b tick ticket first last) × (result.book ≡ commit_range_book b tick ticket first last) }
{
    let h = heads(b);
    let choice = book_decisions::commit_range(
        h, &b.next, &b.ticket, &b.expiry, tick, ticket, first, last,
    );
    let answer = choice.answer;
    let change = choice.change;
    Done {
        answer,
        book: changed(b, change),
    }
}

pub fn report_core(b: Book) -> Result<Progress, Refusal>
    ensures { result ≡ report_answer b }
{
    let h = heads(b);
    book_decisions::report(h, &b.next, &b.ticket, &b.expiry)
}
