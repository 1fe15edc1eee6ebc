// Commit, of one position and of a range, on a book that lies with the caller as 100 numbers.
#![tactic(auto)]

ghost use Rattle.std.specs.Prelude.{◌≡◌};
ghost use Rattle.book.specs.Calls.{commit_answer, commit_book, commit_range_answer, commit_range_book};
ghost use Rattle.kaldvemir_layout_book.specs.Layout.{book_in, book_numbers};

use kaldvemir_layout_book::{change, expiries, heads, nexts, tickets};
use refusals::Refusal;

pub fn commit(book: &mut [u64; 100], tick: u64, ticket: u64, position: u64) -> Result<(), Refusal>
    ensures { (result ≡ commit_answer (book_in book.old) tick ticket position)
        × (book.new ≡ book_numbers (commit_book (book_in book.old) tick ticket position)) }
{
    let numbers: &[u64] = book;
    let choice = book_decisions::commit(
        heads(numbers),
        nexts(numbers),
        tickets(numbers),
        expiries(numbers),
        tick,
        ticket,
        position,
    );
    let answer = choice.answer;
    let altered = choice.change;
    change(book, altered);
    answer
}

pub fn commit_range(
    book: &mut [u64; 100],
    tick: u64,
    ticket: u64,
    first: u64,
    last: u64,
) -> Result<(), Refusal>
    ensures { (result ≡ commit_range_answer (book_in book.old) tick ticket first last)
        × (book.new ≡ book_numbers (commit_range_book (book_in book.old) tick ticket first last)) }
{
    let numbers: &[u64] = book;
    let choice = book_decisions::commit_range(
        heads(numbers),
        nexts(numbers),
        tickets(numbers),
        expiries(numbers),
        tick,
        ticket,
        first,
        last,
    );
    let answer = choice.answer;
    let altered = choice.change;
    change(book, altered);
    answer
}
