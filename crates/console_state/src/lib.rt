// The commands of the program console that alter the runs and the share book. The plain run lies with it as 54 numbers, the run through all sizes up to a
// bound as 54 and its visits, and the book as 100. Each calls the function that callers in C have. The output lists are as long as the rooms.
#![tactic(auto)]

mod all_sizes;
mod book_calls;
mod run;

use console_replies::Reply;

// The commands on the book, by their letters, and the numbers that are their arguments.
fn on_book(
    letter: u8,
    values: [u64; 16],
    book: &mut [u64; 100],
    s0: &mut [u16],
    s1: &mut [u16],
    word: &mut [u16],
) -> Reply {
    let a = values[1];
    let b = values[2];
    let c = values[3];
    match letter {
        b'C' => book_calls::claim(book, a, b, c),
        b'F' => book_calls::release(book, a, b),
        b'O' => book_calls::open(book, a, b),
        b'P' => book_calls::commit(book, a, b, c),
        b'Q' => book_calls::commit_range(book, a, b, c, values[4]),
        b'R' => book_calls::report(book),
        _ => book_calls::take(book, a, b, s0, s1, word),
    }
}

// The commands, by their letters.
pub fn on_state(
    letter: u8,
    values: [u64; 16],
    run: &mut [u16; 54],
    upto: &mut [u16; 54],
    visits: &mut u64,
    book: &mut [u64; 100],
    s0: &mut [u16],
    s1: &mut [u16],
    words: &mut [u16],
    lengths: &mut [u16],
    marks: &mut [u8],
) -> Reply {
    let rows = values[1];
    match letter {
        b'A' => run::begin_at(run, rows, values[2]),
        b'B' => run::begin(run, rows),
        b'L' => run::list(run, rows, s0, s1, words, lengths),
        b'M' => run::list_marked(run, rows, s0, s1, words, lengths, marks),
        b'N' => all_sizes::next(upto, visits, s0, s1, words),
        b'S' => run::step(run, s0, s1, words),
        b'U' => all_sizes::begin(upto, visits, rows),
        b'V' => all_sizes::set_visits(visits, rows),
        _ => on_book(letter, values, book, s0, s1, words),
    }
}
