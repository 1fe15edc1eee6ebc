// The header and the last line of a census, and the line of a refusal, as document 01 shows them ("Small sizes, by hand"). Each is written over
// the beginning of a lent list of bytes, which has room for it.
#![tactic(auto)]

ghost use Rattle.std.specs.Prelude.{◌≤◌, length};
ghost use Rattle.words_decimals.specs.Decimals.{BytesWritten};
ghost use Rattle.census_definition.specs.Census.{header, totals, refusal};

use text_printing_pieces::{put_byte, put_number, put_text};

// The header.
pub fn put_header(out: &mut [u8], size: u64) -> usize
    requires { 64 ≤ length out.old }
    ensures { BytesWritten out.old 0 (header size) result out.new }
{
    let number = put_text(out, 0, b"rooted trivalent diagrams, size ");
    let end = put_number(out, number, size);
    put_byte(out, end, b'\n')
}

// The last line: how many diagrams were listed, and how many of them are kept.
pub fn put_totals(out: &mut [u8], listed: u64, kept: u64) -> usize
    requires { 64 ≤ length out.old }
    ensures { BytesWritten out.old 0 (totals listed kept) result out.new }
{
    let second = put_number(out, 0, listed);
    let third = put_text(out, second, b" listed, ");
    let last = put_number(out, third, kept);
    put_text(out, last, b" kept\n")
}

// The line of a refusal.
pub fn put_refusal(out: &mut [u8], number: u16) -> usize
    requires { 64 ≤ length out.old }
    ensures { BytesWritten out.old 0 (refusal number) result out.new }
{
    let digits = put_text(out, 0, b"refused ");
    let end = put_number(out, digits, number as u64);
    put_byte(out, end, b'\n')
}
