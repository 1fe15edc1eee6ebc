// A line's arguments, read by the form of its command. Argument k is word k after the name, the first being 1.
ghost use Rattle.std.specs.Prelude.{◌≤◌, ◌<◌, length};

use crate::rows::part;
use text_parsing::{find, list, number};

// The most entries of a list.
pub const MAX_ENTRIES: usize = 2048;
// As many for each of the arguments that a line can have, and for none.
pub const ALL_ENTRIES: usize = 8 * MAX_ENTRIES;
// The place of the first room among the values.
const ROOMS: usize = 8;

// The letter of a command, 0 where a line is none, and its arguments: the value of argument k, which is a list's length, at k, and from ROOMS
// on the rooms, the largest numbers where they are left out.
#[derive(Drop)]
pub struct Arguments {
    pub letter: u8,
    pub values: [u64; 16],
}

// A word that is argument k, which a letter says how to read. A list goes into the k-th part of entries, and its value is its length.
fn argument(letter: u8, word: &[u8], k: usize, entries: &mut [u16]) -> Option<u64> {
    if letter != b'L' {
        return number(word);
    }
    if entries.len() / MAX_ENTRIES <= k {
        return None;
    }
    let start = MAX_ENTRIES * k;
    let end = start + MAX_ENTRIES;
    let length = list(word, &mut entries[start..end])?;
    Some(length as u64)
}

fn is_room(letter: u8) -> bool {
    b'0' <= letter && letter <= b'7'
}

// The place among the values of argument k with such a letter. The digits from 0 on are 48 and on.
fn value_place(letter: u8, k: usize) -> usize
    ensures { result < 16 }
{
    if is_room(letter) {
        return ROOMS + (letter % 8) as usize;
    }
    if ROOMS <= k {
        return 0;
    }
    k
}

// The letter of a command whose line ends before argument k; 0 where more are needed. The rooms may be left out, all of them.
fn letter_before(form: &[u8], k: usize) -> u8 {
    if form.len() < k {
        return 0;
    }
    if k < 1 {
        return 0;
    }
    if form.len() == k {
        return form[0];
    }
    if is_room(form[k]) && !is_room(form[k - 1]) {
        return form[0];
    }
    0
}

// Reads the words that follow a name, each after a space, by a form.
fn read_words(text: &[u8], form: &[u8], entries: &mut [u16]) -> Arguments {
    let mut arguments = Arguments {
        letter: 0,
        values: [u64::MAX; 16],
    };
    let mut place: usize = 0;
    let mut k: usize = 1;
    while place < text.len() {
        if form.len() <= k {
            return arguments;
        }
        let start = place + 1;
        let end = find(text, start, text.len(), b' ');
        let Some(value) = argument(form[k], &text[start..end], k, entries) else {
            return arguments;
        };
        arguments.values[value_place(form[k], k)] = value;
        place = end;
        k += 1;
    }
    arguments.letter = letter_before(form, k);
    arguments
}

// The arguments of a line by a row of the table whose name it begins with.
pub fn read_arguments(row: &[u8], line: &[u8], entries: &mut [u16]) -> Arguments {
    let start = part(row, 0).len();
    if line.len() < start {
        return Arguments {
            letter: 0,
            values: [0; 16],
        };
    }
    read_words(&line[start..], part(row, 1), entries)
}

// Argument k where it is a list: the part of entries that its length among the values says.
pub fn entries_of<'a>(entries: &'a [u16], values: [u64; 16], k: usize) -> &'a [u16]
    ensures { length result.now ≤ 2048 }
{
    if ROOMS <= k {
        return &entries[0..0];
    }
    let count = values[k];
    if (MAX_ENTRIES as u64) < count {
        return &entries[0..0];
    }
    let start = MAX_ENTRIES * k;
    let end = start + count as usize;
    if entries.len() < end {
        return &entries[0..0];
    }
    &entries[start..end]
}

// The length of output list i, which has at most so many places. No answer is longer than the array that holds the list, so a room that
// exceeds it is taken as the whole of it.
pub fn room(values: [u64; 16], i: usize, most: usize) -> usize
    ensures { result ≤ most }
{
    if ROOMS <= i {
        return most;
    }
    let n = values[ROOMS + i];
    if most as u64 <= n {
        return most;
    }
    n as usize
}

// Writes the marks that a list of numbers is, up to the first number that is no byte, and returns how many they are.
pub fn marks_of(list: &[u16], marks: &mut [u8]) -> usize
    ensures { result ≤ length marks.old }
{
    let most = list.len().min(marks.len());
    for (i, &x) in list[..most].iter().enumerate() {
        if 255 < x {
            return i;
        }
        marks[i] = x as u8;
    }
    most
}
