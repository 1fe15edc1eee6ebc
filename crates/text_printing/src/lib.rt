// Texts, numbers, lists and words, written as bytes into a lent buffer at a place; the place after them is handed back. A piece that does
// not fit is left out whole, and the place stays (specs/Printing.antt). Numbers with a sign and words stand here.
#![tactic(auto)]

ghost use Rattle.std.specs.Prelude.{◌≡◌, nat_abs};
ghost use Rattle.text_printing.specs.Printing.{output, put_all, signed_pieces, word_pieces};

pub use text_printing_lists::put_list;
pub use text_printing_pieces::{put_byte, put_number, put_text};

// A number without its sign. The least number of the type has no opposite in it, so one is added after the cast.
fn magnitude(x: i32) -> u64
    ensures { result ≡ nat_abs x }
{
    if x < 0 {
        let less = -1 - x;
        return less as u64 + 1;
    }
    x as u64
}

// A number with its sign, where that is a minus.
pub fn put_signed(out: &mut [u8], place: usize, x: i32) -> usize
    ensures { output out.new result ≡ put_all (signed_pieces x) (output out.old place) }
{
    if x < 0 {
        let next = put_byte(out, place, b'-');
        return put_number(out, next, magnitude(x));
    }
    put_number(out, place, magnitude(x))
}

// A word in letters. Nothing where its first item has no letter.
pub fn put_word(out: &mut [u8], place: usize, word: &[u16]) -> usize
    ensures { output out.new result ≡ put_all (word_pieces word.now) (output out.old place) }
{
    if out.len() < place {
        return place;
    }
    match words::letters(word, &mut out[place..]) {
        Ok(n) => place + n,
        Err(_) => place,
    }
}
