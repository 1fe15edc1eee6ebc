// The commands on words, on marks and on a size.
use census_summary::put_summary;
use console_commands::arguments::{marks_of, room};
use console_replies::blocks::copy_into;
use console_replies::{Reply, chosen, done, error, listed, shown, unless_refused, valued};
use kaldvemir::given::kaldvemir_all_reached;
use kaldvemir::listed::{
    kaldvemir_count, kaldvemir_diagram_at, kaldvemir_kept_count, kaldvemir_plain_walk,
};
use kaldvemir::runs::{kaldvemir_begin_at, kaldvemir_rows};
use kaldvemir::sheets::kaldvemir_sheet_positions;
use kaldvemir::spelling::{kaldvemir_lesser, kaldvemir_letters, kaldvemir_read_word};

pub fn read(word: &[u16], s0: &mut [u16], s1: &mut [u16]) -> Reply {
    let mut size: u64 = 0;
    let refusal = kaldvemir_read_word(word, s0, s1, &mut size);
    listed(refusal, 0, [size, size, 0, 0, 0])
}

// The positions of a sheet are the numbers of the reply, of which there are 100: a line has at most 39 cells.
pub fn sheet(sheet: &[u16], values: [u64; 16], refusals: &mut [u16]) -> Reply {
    let mut positions = [0u64; 100];
    let end = room(values, 1, 100);
    let refusal = kaldvemir_sheet_positions(sheet, refusals, &mut positions[0..end]);
    let cells = (sheet.len() / 52) as u64;
    let mut reply = listed(0, 0, [cells, cells, 0, 0, 0]);
    reply.numbers = positions;
    unless_refused(refusal, reply)
}

// The number of the list that is handed back, and the list.
pub fn lesser<'a>(a: &'a [u16], b: &'a [u16], out: &mut [u16]) -> Reply {
    if kaldvemir_lesser(a, b) == 2 {
        return listed(0, 2, [copy_into(b, out), 0, 0, 0, 0]);
    }
    listed(0, 1, [copy_into(a, out), 0, 0, 0, 0])
}

pub fn letters(word: &[u16], letters: &mut [u8]) -> Reply {
    let mut length: u64 = 0;
    let refusal = kaldvemir_letters(word, letters, &mut length);
    listed(refusal, 0, [0, 0, 0, 0, length])
}

// Whether every number of a list is the mark 1; an error where one is no byte.
pub fn reached(list: &[u16], marks: &mut [u8]) -> Reply {
    let n = marks_of(list, marks);
    if n < list.len() {
        return error();
    }
    if kaldvemir_all_reached(&marks[0..n]) {
        return chosen(1);
    }
    chosen(0)
}

pub fn count(size: u64) -> Reply {
    let mut count: u64 = 0;
    let refusal = kaldvemir_count(size, &mut count);
    valued(refusal, count)
}

pub fn kept_count(size: u64) -> Reply {
    let mut kept: u64 = 0;
    let refusal = kaldvemir_kept_count(size, &mut kept);
    valued(refusal, kept)
}

// The lines of the summary with `, ` between them.
pub fn summary(bytes: &mut [u8]) -> Reply {
    if bytes.len() < 576 {
        return error();
    }
    let end = put_summary(bytes, b", ");
    listed(0, 0, [0, 0, 0, 0, end as u64 - 2])
}

pub fn walk(size: u64, list: &mut [u16]) -> Reply {
    let mut count: u64 = 0;
    let refusal = kaldvemir_plain_walk(size, list, &mut count);
    listed(refusal, count, [count, 0, 0, 0, 0])
}

pub fn diagram_at(
    size: u64,
    position: u64,
    s0: &mut [u16],
    s1: &mut [u16],
    word: &mut [u16],
) -> Reply {
    let mut items: u64 = 0;
    let refusal = kaldvemir_diagram_at(size, position, s0, s1, word, &mut items);
    shown(refusal, size, items)
}

// The first row of a run, without its newline; where the run gives none, its position is above the count.
fn first_row(run: &mut [u16; 54], bytes: &mut [u8]) -> Reply {
    let mut given: u64 = 0;
    let mut written: u64 = 0;
    let mut kept: u64 = 0;
    let refusal = kaldvemir_rows(run, 1, bytes, &mut given, &mut written, &mut kept);
    if refusal != 0 {
        return done(refusal);
    }
    if written == 0 {
        return done(32);
    }
    listed(0, 0, [0, 0, 0, 0, written - 1])
}

// The row of a position of a size: the next one of the run that has given the diagrams before it. There are none before position 0, so that it stands
// for a position above every count.
pub fn row(size: u64, position: u64, bytes: &mut [u8]) -> Reply {
    let mut run = [0u16; 54];
    let mut before = u64::MAX;
    if 0 < position {
        before = position - 1;
    }
    let refusal = kaldvemir_begin_at(size, before, &mut run);
    if refusal == 0 {
        return first_row(&mut run, bytes);
    }
    done(refusal)
}
