// A list of numbers, written as bytes into a lent buffer at a place: the entries in decimal with commas between them, `-` for the empty list.
#![tactic(auto)]

ghost use Rattle.std.specs.Prelude.{◌≡◌, ◌∷◌, []};
ghost use Rattle.text_printing_pieces.specs.Pieces.{output, put_all};
ghost use Rattle.text_printing_lists.specs.Lists.{entry_pieces, list_pieces};

use text_printing_pieces::{put_byte, put_number};

// An entry of a list after the first.
pub fn put_entry(out: &mut [u8], place: usize, x: u64) -> usize
    ensures { output out.new result ≡ put_all (entry_pieces (x ∷ [])) (output out.old place) }
{
    let next = put_byte(out, place, b',');
    put_number(out, next, x)
}

pub fn put_list(out: &mut [u8], place: usize, list: &[u16]) -> usize
    ensures { output out.new result ≡ put_all (list_pieces list.now) (output out.old place) }
{
    if list.len() == 0 {
        return put_byte(out, place, b'-');
    }
    let mut next = put_number(out, place, list[0] as u64);
    for &x in &list[1..] {
        next = put_entry(out, next, x as u64);
    }
    next
}
