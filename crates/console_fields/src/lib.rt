// The commands that print the run and the share book, as they lie with the program console, and that write numbers of them, so that a run and a
// book that no operation leaves can be tried too.
#![tactic(auto)]

mod books;
mod runs;

use console_commands::arguments::entries_of;
use console_replies::Reply;

// The commands, by their letters.
pub fn on_fields(
    letter: u8,
    entries: &[u16],
    values: [u64; 16],
    run: &mut [u16; 54],
    book: &mut [u64; 100],
    list: &mut [u16],
) -> Reply {
    match letter {
        b'7' => books::show(book),
        b'8' => runs::show(run, list),
        b'9' => runs::set(
            values[1],
            values[2],
            values[3],
            entries_of(entries, values, 4),
            run,
        ),
        _ => books::set(letter, values[1], values[2], book),
    }
}
