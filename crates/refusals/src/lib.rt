// Why an operation turns its input away. The whole product has one list, as there is one list of numbers by which callers outside it, in C, in
// Rust and at the console, know a refusal.
#![tactic(auto)]

ghost use Rattle.std.specs.Prelude.{◌≡◌};
ghost use Rattle.refusals.specs.Numbers.{number};

// The conditions in the order of their numbers; docs/REFUSALS.md says which operation answers which, and in what order.
#[derive(Clone, Copy, Debug, PartialEq, Eq)]
pub enum Refusal {
    // A lent diagram: the length of its lists, its root, their entries, what they do to an edge, and whether all edges are reached.
    SizeOutOfRange,
    ListsDiffer,
    RootOutOfRange,
    BlackOutOfRange,
    WhiteOutOfRange,
    ThriceMoves,
    TwiceMoves,
    NotConnected,
    // An output list is short.
    ListShort,
    // A word: its length, its first item, how deep a join reaches, the labels given, and the edges pending at its end or before it.
    WordLength,
    FirstItem,
    JoinTooDeep,
    LabelTooLarge,
    EdgesPending,
    NoEdgePending,
    // A listing: the size, the position, the run, and the size of the plain walk.
    ListedSizeOutOfRange,
    PositionOutOfRange,
    RunNotValid,
    WalkSizeOutOfRange,
    // The share book: the book itself, the number of shares, the tick, and what is asked of a share or brought by a ticket.
    BookNotValid,
    SharesOutOfRange,
    TickOutOfRange,
    ShareOutOfRange,
    LengthOutOfRange,
    ShareFinished,
    ShareHeld,
    TicketsSpent,
    NoSuchTicket,
    TicketLapsed,
    PositionNotDue,
    // A sheet of words or one of its cells.
    SheetShape,
    // A level of 2^64 or more.
    LevelTooLarge,
}

impl Refusal {
    // The number by which callers outside the library know it.
    pub fn number(self) -> u16
        ensures { result ≡ number self }
    {
        match self {
            Refusal::SizeOutOfRange => 1,
            Refusal::ListsDiffer => 2,
            Refusal::RootOutOfRange => 3,
            Refusal::BlackOutOfRange => 4,
            Refusal::WhiteOutOfRange => 5,
            Refusal::ThriceMoves => 6,
            Refusal::TwiceMoves => 7,
            Refusal::NotConnected => 8,
            Refusal::ListShort => 9,
            Refusal::WordLength => 21,
            Refusal::FirstItem => 22,
            Refusal::JoinTooDeep => 23,
            Refusal::LabelTooLarge => 24,
            Refusal::EdgesPending => 25,
            Refusal::NoEdgePending => 26,
            Refusal::ListedSizeOutOfRange => 31,
            Refusal::PositionOutOfRange => 32,
            Refusal::RunNotValid => 34,
            Refusal::WalkSizeOutOfRange => 35,
            Refusal::BookNotValid => 50,
            Refusal::SharesOutOfRange => 51,
            Refusal::TickOutOfRange => 52,
            Refusal::ShareOutOfRange => 53,
            Refusal::LengthOutOfRange => 54,
            Refusal::ShareFinished => 55,
            Refusal::ShareHeld => 56,
            Refusal::TicketsSpent => 57,
            Refusal::NoSuchTicket => 58,
            Refusal::TicketLapsed => 59,
            Refusal::PositionNotDue => 60,
            Refusal::SheetShape => 61,
            Refusal::LevelTooLarge => 62,
        }
    }
}
