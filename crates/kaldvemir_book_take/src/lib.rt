// Take, on a book that lies with the caller as 100 numbers.
#![tactic(auto)]

ghost use Rattle.std.specs.Prelude.{◌≡◌};
ghost use Rattle.book.specs.Taken.{TakePromise};
ghost use Rattle.book.specs.declared.types.Book.{Book};
ghost use Rattle.kaldvemir_layout_book.specs.Layout.{book_in, book_numbers};

use book::Taken;
use kaldvemir_layout_book::{change, expiries, heads, nexts, tickets};
use refusals::Refusal;

pub fn take(
    book: &mut [u64; 100],
    tick: u64,
    ticket: u64,
    s0: &mut [u16],
    s1: &mut [u16],
    word: &mut [u16],
) -> Result<Taken, Refusal>
    ensures { (next : Book)
        × TakePromise (book_in book.old) tick ticket s0.old s1.old word.old result next s0.new s1.new word.new
        × (book.new ≡ book_numbers next) }
{
    let numbers: &[u64] = book;
    let choice = book_decisions::take(
        heads(numbers),
        nexts(numbers),
        tickets(numbers),
        expiries(numbers),
        tick,
        ticket,
        s0,
        s1,
        word,
    );
    let answer = choice.answer;
    let altered = choice.change;
    change(book, altered);
    answer
}
