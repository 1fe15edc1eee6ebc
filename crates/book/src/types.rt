// The share book, what its operations answer, and what they alter. An open makes a new lease table; a claim acquires the lease of a share, and
// answers the ticket, which is the lease's fencing token; a take reads the next unit of work under a live lease; a commit records that it is
// finished; a release gives a live lease back; a report tells the progress.
use refusals::Refusal;

// A book is a lease table: it divides the positions of one size among 1 to 32 shares (shards), each of which one session at a time may
// hold. Entry j - 1 of each list is share j's; unused entries are 0.
#[derive(Clone, Copy)]
pub struct Book {
    pub size: u64,
    pub shares: u64,
    // the latest tick of an accepted call; a tick is logical time, given by the caller
    pub latest: u64,
    // how many tickets have been issued
    pub issued: u64,
    // each share's next position
    pub next: [u64; 32],
    // the ticket that stands at each share, 0 where none does: the fencing token of the share's lease. Tickets are numbered upward, and
    // one that has been replaced has no power
    pub ticket: [u64; 32],
    // the tick at which that ticket lapses, which is the lease's end; 0 without a ticket
    pub expiry: [u64; 32],
}

// The numbers of a book apart from its lists.
#[derive(Clone, Copy)]
pub struct Heads {
    pub size: u64,
    pub shares: u64,
    pub latest: u64,
    pub issued: u64,
}

// What a call alters in a book: nothing; the latest tick; or that, the number of tickets issued and the entries of one share.
#[derive(Drop)]
pub enum Change {
    Nothing,
    Latest(u64),
    Entries {
        latest: u64,
        issued: u64,
        share: u64,
        next: u64,
        ticket: u64,
        expiry: u64,
    },
}

// What a take answers: the unit of work that is due under a live lease, that is the share, its next position, and the length of the word written.
#[derive(Clone, Copy)]
pub struct Taken {
    pub share: u64,
    pub position: u64,
    pub length: u64,
}

// What a report answers: how many positions are finished, and whether all are.
#[derive(Clone, Copy)]
pub struct Progress {
    pub committed: u64,
    pub complete: bool,
}

// What an operation on a book by value hands back: its answer, and the book that the call leaves. The book is not inside the Result, because a
// refused call leaves one too: the book as it was (specs/Calls, claim_book and the like).
#[derive(Drop)]
pub struct Done<T> {
    pub answer: Result<T, Refusal>,
    pub book: Book,
}

// What is decided on the lent parts of a book: the answer, and what the call alters.
#[derive(Drop)]
pub struct Choice<T> {
    pub answer: Result<T, Refusal>,
    pub change: Change,
}
