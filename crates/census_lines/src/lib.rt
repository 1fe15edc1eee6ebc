// The line of a diagram in a census, as document 01 shows it ("Small sizes, by hand"), written into a lent buffer as crate text_printing writes: the place after
// it is handed back, and a piece that does not fit is left out (specs/Lines.antt).
#![tactic(auto)]

ghost use Rattle.std.specs.Prelude.{◌≡◌, ◌∷◌, []};
ghost use Rattle.words.specs.Letters.{decimal};
ghost use Rattle.text_printing.specs.Printing.{output, put, put_all, list_pieces};
ghost use Rattle.census_lines.specs.Lines.{field, numbers_pieces, measured_pieces, mark_text, line_pieces};

use invariants::Numbers;
use refusals::Refusal;
use text_printing::{put_byte, put_list, put_number, put_signed, put_text, put_word};

// A number with a space before it.
fn put_number_field(out: &mut [u8], place: usize, x: u64) -> usize
    ensures { output out.new result ≡ put_all (field (decimal x ∷ [])) (output out.old place) }
{
    let next = put_byte(out, place, b' ');
    put_number(out, next, x)
}

// A list with a space before it.
fn put_list_field(out: &mut [u8], place: usize, list: &[u16]) -> usize
    ensures { output out.new result ≡ put_all (field (list_pieces list.now)) (output out.old place) }
{
    let next = put_byte(out, place, b' ');
    put_list(out, next, list)
}

// The five invariants.
fn put_numbers(out: &mut [u8], place: usize, numbers: Numbers) -> usize
    ensures { output out.new result ≡ put_all (numbers_pieces numbers) (output out.old place) }
{
    let second = put_number_field(out, place, numbers.e2 as u64);
    let third = put_number_field(out, second, numbers.e3 as u64);
    let fourth = put_number_field(out, third, numbers.c as u64);
    let sign = put_byte(out, fourth, b' ');
    let last = put_signed(out, sign, numbers.t);
    put_number_field(out, last, numbers.level)
}

// The same of an answer of invariants. Nothing where it is a refusal, which no listed diagram has.
fn put_measured(out: &mut [u8], place: usize, measured: Result<Numbers, Refusal>) -> usize
    ensures { output out.new result ≡ put_all (measured_pieces measured) (output out.old place) }
{
    match measured {
        Ok(numbers) => put_numbers(out, place, numbers),
        Err(_) => place,
    }
}

// The end of a line: the keep mark and the newline.
fn put_mark(out: &mut [u8], place: usize, mark: u8) -> usize
    ensures { output out.new result ≡ put (mark_text mark) (output out.old place) }
{
    if mark == 1 {
        return put_text(out, place, b" K\n");
    }
    put_text(out, place, b" -\n")
}

// The line of the diagram s0, s1.
pub fn put_line(
    out: &mut [u8],
    place: usize,
    position: u64,
    word: &[u16],
    s0: &[u16],
    s1: &[u16],
    measured: Result<Numbers, Refusal>,
    mark: u8,
) -> usize
    ensures { output out.new result
        ≡ put_all (line_pieces position word.now s0.now s1.now measured mark) (output out.old place) }
{
    let space = put_number(out, place, position);
    let letters = put_byte(out, space, b' ');
    let black = put_word(out, letters, word);
    let white = put_list_field(out, black, s0);
    let numbers = put_list_field(out, white, s1);
    let end = put_measured(out, numbers, measured);
    put_mark(out, end, mark)
}
