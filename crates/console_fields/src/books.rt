// The commands that print the share book and write single numbers of it. Its fields have the letters 0 to 6: four numbers, and three lists of a
// number for each share.
use console_replies::{Reply, chosen, error};

pub fn show(book: &[u64; 100]) -> Reply {
    let numbers = *book;
    Reply {
        choice: 0,
        numbers,
        signed: 0,
        lengths: [0; 5],
    }
}

// The place in the book of a share's number in the list of a letter, 100 where there is none.
fn share_place(letter: u8, share: u64) -> usize {
    if share < 1 {
        return 100;
    }
    if 32 < share {
        return 100;
    }
    let last = share as usize;
    match letter {
        b'4' => 3 + last,
        b'5' => 35 + last,
        b'6' => 67 + last,
        _ => 100,
    }
}

// Writes a number of the book, where it has the place.
fn write(place: usize, value: u64, book: &mut [u64; 100]) -> Reply {
    if 100 <= place {
        return error();
    }
    book[place] = value;
    chosen(0)
}

// Writes the field of a letter: a single number, whose value is first, or that of a share, which is first.
pub fn set(letter: u8, first: u64, second: u64, book: &mut [u64; 100]) -> Reply {
    match letter {
        b'0' => write(0, first, book),
        b'1' => write(1, first, book),
        b'2' => write(2, first, book),
        b'3' => write(3, first, book),
        _ => write(share_place(letter, first), second, book),
    }
}
