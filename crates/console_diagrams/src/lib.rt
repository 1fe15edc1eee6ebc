// The commands of the program console that alter nothing: on diagrams that are given, on words, and on the lists of a size. Each calls the
// function that callers in C have, but for the summary, whose text is the census program's. The output lists are as long as the rooms.
#![tactic(auto)]

mod given;
mod word_calls;

use console_commands::arguments::entries_of;
use console_replies::Reply;

// The commands on words, on marks and on a size, by their letters.
fn on_words(
    letter: u8,
    entries: &[u16],
    values: [u64; 16],
    s0: &mut [u16],
    s1: &mut [u16],
    word: &mut [u16],
    bytes: &mut [u8],
) -> Reply {
    let list = entries_of(entries, values, 1);
    match letter {
        b'a' => word_calls::diagram_at(values[1], values[2], s0, s1, word),
        b'd' => word_calls::read(list, s0, s1),
        b'e' => word_calls::kept_count(values[1]),
        b'h' => word_calls::sheet(list, values, s0),
        b'l' => word_calls::lesser(list, entries_of(entries, values, 2), s0),
        b'm' => word_calls::reached(list, bytes),
        b'n' => word_calls::count(values[1]),
        b'o' => word_calls::row(values[1], values[2], bytes),
        b't' => word_calls::letters(list, bytes),
        b'y' => word_calls::summary(bytes),
        _ => word_calls::walk(values[1], s0),
    }
}

// The commands, by their letters. Those on a diagram have its lists and its root as their first arguments.
pub fn on_diagrams(
    letter: u8,
    entries: &[u16],
    values: [u64; 16],
    t0: &mut [u16],
    t1: &mut [u16],
    word: &mut [u16],
    bytes: &mut [u8],
) -> Reply {
    let s0 = entries_of(entries, values, 1);
    let s1 = entries_of(entries, values, 2);
    let root = values[3];
    match letter {
        b'b' => given::relabel(s0, s1, root, t0, t1, word),
        b'c' => given::check(s0, s1, root),
        b'i' => given::invariants(s0, s1, root),
        b'k' => given::kept(s0, s1, root),
        b'p' => given::position(s0, s1, root),
        b'r' => given::compare_rooted(s0, s1, root, entries, values),
        b's' => given::symmetries(s0, s1, root),
        b'u' => given::compare_unrooted(s0, s1, root, entries, values),
        _ => on_words(letter, entries, values, t0, t1, word, bytes),
    }
}
