// The lines of a block of diagrams, as the listing in blocks writes them: one for each, with its position, word, lists, invariants and keep mark.
#![tactic(auto)]

ghost use Rattle.std.specs.Prelude.{◌≡◌, cond, ◌≤◌, eqb, Result};
ghost use Rattle.invariants.specs.Promises.{InvariantsPromise};
ghost use Rattle.invariants.specs.declared.Numbers.{Numbers};
ghost use Rattle.refusals.specs.declared.Refusal.{Refusal};
ghost use Rattle.text_printing.specs.Printing.{output, put_all};
ghost use Rattle.census_lines.specs.Lines.{line_pieces};
ghost use Rattle.census_rows.specs.Rows.{part, rows_printed, PutRowsPromise};

use census_lines::put_line;
use diagrams::Diagram;

// The most diagrams of a block: the lists that hold one fit a caller's stack.
pub const ROWS: usize = 48;

// So many entries of a list from a place on; none where the list has not so many there.
fn part(list: &[u16], from: usize, count: usize) -> &[u16]
    ensures { result.now ≡ part list.now from count }
{
    if list.len() < from {
        return &list[0..0];
    }
    if list.len() - from < count {
        return &list[0..0];
    }
    &list[from..from + count]
}

// The length of a word, as an index.
fn items_of(length: u16) -> usize
    ensures { (result ≡ length) × (result ≤ 65535) }
{
    length as usize
}

// 1 for the mark of a kept diagram, 0 for another.
pub fn kept_of(mark: u8) -> u64
    ensures { (result ≡ cond (eqb mark 1) 1 0) × (result ≤ 1) }
{
    if mark == 1 { 1 } else { 0 }
}

// How many rows are printed: all of them, or none where they are too many, too wide, or past the last 64-bit position.
fn rows_printed(listed: u64, n: usize, rows: usize) -> usize
    ensures { result ≡ rows_printed listed n rows }
{
    if ROWS < rows {
        return 0;
    }
    if Diagram::MAX_LISTED < n {
        return 0;
    }
    if u64::MAX - listed < rows as u64 {
        return 0;
    }
    rows
}

// The line of a diagram, whose invariants are found here.
fn put_row(
    out: &mut [u8],
    place: usize,
    position: u64,
    word: &[u16],
    s0: &[u16],
    s1: &[u16],
    mark: u8,
) -> usize
    ensures { (a : Result Numbers Refusal)
        × InvariantsPromise s0.now s1.now 1 a
        × (output out.new result ≡ put_all (line_pieces position word.now s0.now s1.now a mark) (output out.old place)) }
{
    let measured = invariants::invariants(s0, s1, 1);
    put_line(out, place, position, word, s0, s1, measured, mark)
}

// How far the lines of a block reach, and how many of its diagrams are kept.
#[derive(Clone, Copy)]
pub struct Page {
    pub end: usize,
    pub kept: u64,
}

// The lines of a block of diagrams, written from the beginning of out; `listed` diagrams came before it.
pub fn put_rows(
    out: &mut [u8],
    listed: u64,
    n: usize,
    rows: usize,
    s0: &[u16],
    s1: &[u16],
    words: &[u16],
    lengths: &[u16; ROWS],
    marks: &[u8; ROWS],
) -> Page
    ensures { PutRowsPromise listed n rows s0.now s1.now words.now lengths.now marks.now
        out.old out.new result.end result.kept }
{
    let count = rows_printed(listed, n, rows);
    let mut end: usize = 0;
    let mut kept: u64 = 0;
    let mut first: usize = 0;
    let mut item: usize = 0;
    for i in 0..count {
        let m = items_of(lengths[i]);
        let mark = marks[i];
        end = put_row(
            out,
            end,
            listed + (i as u64 + 1),
            part(words, item, m),
            part(s0, first, n),
            part(s1, first, n),
            mark,
        );
        kept += kept_of(mark);
        first += n;
        item += m;
    }
    Page { end, kept }
}
