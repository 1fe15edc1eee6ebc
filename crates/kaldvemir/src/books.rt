// The share book, which lies with the caller as 100 numbers.
ghost use Rattle.std.specs.Prelude.{◌≡◌, Result};
ghost use Rattle.refusals.specs.declared.Refusal.{Refusal};
ghost use Rattle.book.specs.Calls.{open_answer, open_book, claim_answer, claim_book, commit_answer, commit_book, commit_range_answer, commit_range_book, release_answer, release_book, report_answer};
ghost use Rattle.book.specs.Taken.{TakePromise};
ghost use Rattle.book.specs.declared.types.Book.{Book};
ghost use Rattle.book.specs.declared.types.Taken.{Taken};
ghost use Rattle.kaldvemir_answers.specs.Answers as answers;
ghost use Rattle.kaldvemir_layout_book.specs.Layout.{book_in, book_numbers};

use kaldvemir_answers::{number_of, tell};
use kaldvemir_answers_book::{tell_progress, tell_taken};

// Nothing of the lent book is read, and it is written only where the opening is accepted.
#[unsafe(no_mangle)]
pub extern "C" fn kaldvemir_open(book: &mut [u64; 100], size: u64, shares: u64) -> u16
    ensures { (result ≡ answers.refusal_number (open_answer size shares))
        × (book.new ≡ book_numbers (open_book (book_in book.old) size shares)) }
{
    number_of(kaldvemir_book::open(book, size, shares))
}

#[unsafe(no_mangle)]
pub extern "C" fn kaldvemir_claim(
    book: &mut [u64; 100],
    tick: u64,
    share: u64,
    length: u64,
    ticket: &mut u64,
) -> u16
    ensures { (result ≡ answers.refusal_number (claim_answer (book_in book.old) tick share length))
        × (ticket.new ≡ answers.claiming_ticket (claim_answer (book_in book.old) tick share length) ticket.old)
        × (book.new ≡ book_numbers (claim_book (book_in book.old) tick share length)) }
{
    tell(kaldvemir_book::claim(book, tick, share, length), ticket)
}

#[unsafe(no_mangle)]
pub extern "C" fn kaldvemir_take(
    book: &mut [u64; 100],
    tick: u64,
    ticket: u64,
    s0: &mut [u16],
    s1: &mut [u16],
    word: &mut [u16],
    share: &mut u64,
    position: &mut u64,
    length: &mut u64,
) -> u16
    ensures { (a : Result Taken Refusal) × (next : Book)
        × TakePromise (book_in book.old) tick ticket s0.old s1.old word.old a next s0.new s1.new word.new
        × (result ≡ answers.refusal_number a)
        × (share.new ≡ answers.taking_share a share.old)
        × (position.new ≡ answers.taking_position a position.old)
        × (length.new ≡ answers.taking_length a length.old)
        × (book.new ≡ book_numbers next) }
{
    let a = kaldvemir_book_take::take(book, tick, ticket, s0, s1, word);
    tell_taken(a, share, position, length)
}

#[unsafe(no_mangle)]
pub extern "C" fn kaldvemir_commit(
    book: &mut [u64; 100],
    tick: u64,
    ticket: u64,
    position: u64,
) -> u16
    ensures { (result ≡ answers.refusal_number (commit_answer (book_in book.old) tick ticket position))
        × (book.new ≡ book_numbers (commit_book (book_in book.old) tick ticket position)) }
{
    number_of(kaldvemir_book_commit::commit(book, tick, ticket, position))
}

#[unsafe(no_mangle)]
pub extern "C" fn kaldvemir_commit_range(
    book: &mut [u64; 100],
    tick: u64,
    ticket: u64,
    first: u64,
    last: u64,
) -> u16
    ensures { (result ≡ answers.refusal_number (commit_range_answer (book_in book.old) tick ticket first last))
        × (book.new ≡ book_numbers (commit_range_book (book_in book.old) tick ticket first last)) }
{
    number_of(kaldvemir_book_commit::commit_range(book, tick, ticket, first, last))
}

#[unsafe(no_mangle)]
pub extern "C" fn kaldvemir_release(book: &mut [u64; 100], tick: u64, ticket: u64) -> u16
    ensures { (result ≡ answers.refusal_number (release_answer (book_in book.old) tick ticket))
        × (book.new ≡ book_numbers (release_book (book_in book.old) tick ticket)) }
{
    number_of(kaldvemir_book::release(book, tick, ticket))
}

#[unsafe(no_mangle)]
pub extern "C" fn kaldvemir_report(
    book: &[u64; 100],
    committed: &mut u64,
    complete: &mut u64,
) -> u16
    ensures { (result ≡ answers.refusal_number (report_answer (book_in book.now)))
        × (committed.new ≡ answers.reporting_committed (report_answer (book_in book.now)) committed.old)
        × (complete.new ≡ answers.reporting_complete (report_answer (book_in book.now)) complete.old) }
{
    let a = kaldvemir_book::report(book);
    tell_progress(a, committed, complete)
}
