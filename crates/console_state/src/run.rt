// The commands on the run.
use console_replies::blocks::block;
use console_replies::{Reply, done, long, shown};
use kaldvemir::runs::{
    kaldvemir_begin, kaldvemir_begin_at, kaldvemir_list, kaldvemir_list_marked, kaldvemir_step,
};

pub fn begin(run: &mut [u16; 54], size: u64) -> Reply {
    done(kaldvemir_begin(size, run))
}

// The run that has given so many diagrams.
pub fn begin_at(run: &mut [u16; 54], size: u64, position: u64) -> Reply {
    done(kaldvemir_begin_at(size, position, run))
}

pub fn step(run: &mut [u16; 54], s0: &mut [u16], s1: &mut [u16], word: &mut [u16]) -> Reply {
    let mut items: u64 = 0;
    let refusal = kaldvemir_step(run, s0, s1, word, &mut items);
    shown(refusal, long(run[0]), items)
}

// The next diagrams of the run, so many at most.
pub fn list(
    run: &mut [u16; 54],
    most: u64,
    s0: &mut [u16],
    s1: &mut [u16],
    words: &mut [u16],
    lengths: &mut [u16],
) -> Reply {
    let mut rows: u64 = 0;
    let refusal = kaldvemir_list(run, most, s0, s1, words, lengths, &mut rows);
    block(refusal, rows, run[0], lengths)
}

// The same, with their keep marks.
pub fn list_marked(
    run: &mut [u16; 54],
    most: u64,
    s0: &mut [u16],
    s1: &mut [u16],
    words: &mut [u16],
    lengths: &mut [u16],
    marks: &mut [u8],
) -> Reply {
    let mut rows: u64 = 0;
    let refusal = kaldvemir_list_marked(run, most, s0, s1, words, lengths, marks, &mut rows);
    block(refusal, rows, run[0], lengths)
}
