// The share book: it divides the positions of one size among shares, which sessions claim, take diagrams of, commit and release.
// The caller owns the book and lends it to each operation. A refused call leaves it as it was.
#![tactic(auto)]

ghost use Rattle.std.specs.Prelude.{◌≡◌};
ghost use Rattle.book.specs.Calls.{open_answer, open_book, claim_answer, claim_book, commit_answer, commit_book, commit_range_answer, commit_range_book, release_answer, release_book, report_answer};
ghost use Rattle.book.specs.Taken.{TakePromise};

pub use book::{Book, Done, Progress, Taken};
use book_operations::{
    claim_core, commit_core, commit_range_core, open_core, release_core, report_core, take_core,
};
use refusals::Refusal;

// Divides the positions of a size among k shares, each at its first position. Refuses 31; 51, k outside 1..32.
pub fn open(b: &mut Book, size: u64, k: u64) -> Result<(), Refusal>
    ensures { (result ≡ open_answer size k) × (b.new ≡ open_book b.old size k) }
{
    let c = open_core(*b, size, k);
    *b = c.book;
    c.answer
}

// Gives the next ticket for a share, which holds until tick + length. Refuses 50; 52; 53, share outside 1..k; 54, length outside
// 1..65,535; 55, finished; 56, held and not lapsed; 57, 65,535 tickets issued.
pub fn claim(b: &mut Book, tick: u64, share: u64, length: u64) -> Result<u64, Refusal>
    ensures { (result ≡ claim_answer b.old tick share length) × (b.new ≡ claim_book b.old tick share length) }
{
    let c = claim_core(*b, tick, share, length);
    *b = c.book;
    c.answer
}

// Gives the share where the ticket stands, its next position, and writes the diagram there with its word, whose length it returns.
// Refuses 50; 52; 58, the ticket stands at no share; 59, it has lapsed; 9, an output list is short (n, n, and n + 1).
pub fn take(
    b: &mut Book,
    tick: u64,
    ticket: u64,
    s0: &mut [u16],
    s1: &mut [u16],
    word: &mut [u16],
) -> Result<Taken, Refusal>
    ensures { TakePromise b.old tick ticket s0.old s1.old word.old result b.new s0.new s1.new word.new }
{
    let c = take_core(*b, tick, ticket, s0, s1, word);
    *b = c.book;
    c.answer
}

// Commits the next position of the share where the ticket stands; past the share's last position the ticket ends. Refuses 50; 52; 58;
// 59; 60, not that share's next position.
pub fn commit(b: &mut Book, tick: u64, ticket: u64, position: u64) -> Result<(), Refusal>
    ensures { (result ≡ commit_answer b.old tick ticket position) × (b.new ≡ commit_book b.old tick ticket position) }
{
    let c = commit_core(*b, tick, ticket, position);
    *b = c.book;
    c.answer
}

// Commits the positions first, first + 1, .., last, as that many commits at that tick would, or none of them: where one would be refused, it is that
// one's refusal. Refuses 50; 52; 58, also where last is past the share's last position; 59; 60, first is above last or not that share's next position.
pub fn commit_range(
    b: &mut Book,
    tick: u64,
    ticket: u64,
    first: u64,
    last: u64,
) -> Result<(), Refusal>
    ensures { (result ≡ commit_range_answer b.old tick ticket first last) × (b.new ≡ commit_range_book b.old tick ticket first last) }
{
    let c = commit_range_core(*b, tick, ticket, first, last);
    *b = c.book;
    c.answer
}

// Ends the ticket: its share is free. Refuses 50; 52; 58; 59.
pub fn release(b: &mut Book, tick: u64, ticket: u64) -> Result<(), Refusal>
    ensures { (result ≡ release_answer b.old tick ticket) × (b.new ≡ release_book b.old tick ticket) }
{
    let c = release_core(*b, tick, ticket);
    *b = c.book;
    c.answer
}

// The number of committed positions, and whether every share is finished. Refuses 50.
pub fn report(b: &Book) -> Result<Progress, Refusal>
    ensures { result ≡ report_answer b.now }
{
    report_core(*b)
}
