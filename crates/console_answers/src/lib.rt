// The text of an answer. Each byte of it stands for itself, but a digit, a capital letter or `+` for a field of the reply: 0 to 3 for an output
// list, 4 for the output list of bytes as numbers and 5 for it as letters, 6 to 8 for a long list, 9 for the first of the numbers, A to Z for a
// number and + for the signed number (specs/Answers.antt). Of an output list the first entries are printed, as many as the reply says.
#![tactic(auto)]

ghost use Rattle.std.specs.Prelude.{◌≡◌, ◌∷◌, [], ◌≤◌, ◌<◌, get_or, take};
ghost use Rattle.text_printing.specs.Printing.{output, put_all, list_pieces};
ghost use Rattle.console_answers.specs.Answers.{is_within, bytes_pieces, letters_pieces, long_list, number_pieces, field_pieces, answer_pieces, lists};

use console_replies::Reply;
use text_printing::{put_byte, put_list, put_number, put_signed, put_text};
use text_printing_widths::{put_byte_list, put_long_list};

fn within(byte: u8, first: u8, last: u8) -> bool
    ensures { result ≡ is_within first last byte }
{
    if byte < first {
        return false;
    }
    byte <= last
}

// The first n entries of a list, all where there are fewer.
fn first_entries<'a>(list: &'a [u16], n: u64) -> &'a [u16]
    ensures { result.now ≡ take n list.now }
{
    if list.len() as u64 <= n {
        return list;
    }
    let end = n as usize;
    &list[0..end]
}

// The first n bytes, all where there are fewer.
fn first_bytes<'a>(bytes: &'a [u8], n: u64) -> &'a [u8]
    ensures { result.now ≡ take n bytes.now }
{
    if bytes.len() as u64 <= n {
        return bytes;
    }
    let end = n as usize;
    &bytes[0..end]
}

// Output list k, the first being 0.
fn output_list<'a>(
    k: u8,
    s0: &'a [u16],
    s1: &'a [u16],
    words: &'a [u16],
    lengths: &'a [u16],
) -> &'a [u16]
    requires { k < 4 }
    ensures { result.now ≡ get_or (s0.now ∷ s1.now ∷ words.now ∷ lengths.now ∷ []) k [] }
{
    if k == 0 {
        return s0;
    }
    if k == 1 {
        return s1;
    }
    if k == 2 {
        return words;
    }
    lengths
}

// Letters, `-` for none.
fn put_letters(out: &mut [u8], place: usize, letters: &[u8]) -> usize
    ensures { output out.new result ≡ put_all (letters_pieces letters.now) (output out.old place) }
{
    if letters.len() == 0 {
        return put_byte(out, place, b'-');
    }
    put_text(out, place, letters)
}

// The output list of bytes, as numbers or as letters.
fn put_bytes(out: &mut [u8], place: usize, byte: u8, bytes: &[u8]) -> usize
    ensures { output out.new result ≡ put_all (bytes_pieces byte bytes.now) (output out.old place) }
{
    if byte == b'4' {
        return put_byte_list(out, place, bytes);
    }
    put_letters(out, place, bytes)
}

// Long list k of a reply's numbers, the first being 0.
fn long_list<'a>(numbers: &'a [u64; 100], k: usize) -> &'a [u64]
    requires { k < 3 }
    ensures { result.now ≡ long_list k numbers.now }
{
    let all: &[u64] = numbers;
    let start = 4 + 32 * k;
    let end = start + 32;
    &all[start..end]
}

// The first n of a reply's numbers, all where there are fewer.
fn first_numbers<'a>(numbers: &'a [u64; 100], n: u64) -> &'a [u64]
    ensures { result.now ≡ take n numbers.now }
{
    let all: &[u64] = numbers;
    if all.len() as u64 <= n {
        return all;
    }
    let end = n as usize;
    &all[0..end]
}

// A field that is in no output list, or a byte that stands for itself.
fn put_numbers(out: &mut [u8], place: usize, byte: u8, reply: Reply) -> usize
    ensures { output out.new result ≡ put_all (number_pieces reply byte) (output out.old place) }
{
    let numbers = reply.numbers;
    if within(byte, b'6', b'8') {
        return put_long_list(out, place, long_list(&numbers, (byte - b'6') as usize));
    }
    if within(byte, b'A', b'Z') {
        let k = (byte - b'A') as usize;
        return put_number(out, place, numbers[k]);
    }
    if byte == b'+' {
        return put_signed(out, place, reply.signed);
    }
    put_byte(out, place, byte)
}

// What a byte of a text stands for.
fn put_field<'a>(
    out: &mut [u8],
    place: usize,
    byte: u8,
    reply: Reply,
    s0: &'a [u16],
    s1: &'a [u16],
    words: &'a [u16],
    lengths: &'a [u16],
    bytes: &[u8],
) -> usize
    ensures { output out.new result ≡ put_all (field_pieces reply (lists s0.now s1.now words.now lengths.now bytes.now) byte) (output out.old place) }
{
    let counts = reply.lengths;
    if within(byte, b'0', b'3') {
        let k = byte - b'0';
        let n = counts[k as usize];
        return put_list(
            out,
            place,
            first_entries(output_list(k, s0, s1, words, lengths), n),
        );
    }
    if within(byte, b'4', b'5') {
        return put_bytes(out, place, byte, first_bytes(bytes, counts[4]));
    }
    if byte == b'9' {
        let numbers = reply.numbers;
        return put_long_list(out, place, first_numbers(&numbers, counts[1]));
    }
    put_numbers(out, place, byte, reply)
}

pub fn put_answer<'a>(
    out: &mut [u8],
    place: usize,
    text: &[u8],
    reply: Reply,
    s0: &'a [u16],
    s1: &'a [u16],
    words: &'a [u16],
    lengths: &'a [u16],
    bytes: &[u8],
) -> usize
    ensures { output out.new result ≡ put_all (answer_pieces reply (lists s0.now s1.now words.now lengths.now bytes.now) text.now) (output out.old place) }
{
    let mut next = place;
    for &byte in text {
        next = put_field(out, next, byte, reply, s0, s1, words, lengths, bytes);
    }
    next
}
