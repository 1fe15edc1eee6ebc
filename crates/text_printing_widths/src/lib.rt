// Lists of bytes and of 64-bit numbers, printed as crate text_printing_lists prints a list of 16-bit ones: the entries in decimal, parted by commas, and
// `-` for the empty list. The three are no single function: `Into` promises a relation, so it would promise some list, and not that one.
#![tactic(auto)]

ghost use Rattle.std.specs.Prelude.{◌≡◌};
ghost use Rattle.text_printing_pieces.specs.Pieces.{output, put_all};
ghost use Rattle.text_printing_lists.specs.Lists.{list_pieces};

use text_printing_lists::put_entry;
use text_printing_pieces::{put_byte, put_number};

pub fn put_byte_list(out: &mut [u8], place: usize, list: &[u8]) -> usize
    ensures { output out.new result ≡ put_all (list_pieces list.now) (output out.old place) }
{
    if list.len() == 0 {
        return put_byte(out, place, b'-');
    }
    let mut next = put_number(out, place, list[0] as u64);
    for &byte in &list[1..] {
        next = put_entry(out, next, byte as u64);
    }
    next
}

pub fn put_long_list(out: &mut [u8], place: usize, list: &[u64]) -> usize
    ensures { output out.new result ≡ put_all (list_pieces list.now) (output out.old place) }
{
    if list.len() == 0 {
        return put_byte(out, place, b'-');
    }
    let mut next = put_number(out, place, list[0]);
    for &x in &list[1..] {
        next = put_entry(out, next, x);
    }
    next
}
