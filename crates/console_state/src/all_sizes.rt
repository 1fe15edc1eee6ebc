// The commands on the run through all sizes up to a bound.
use console_replies::{Reply, done, placed};
use kaldvemir::all_sizes::{kaldvemir_upto_begin, kaldvemir_upto_step};

pub fn begin(run: &mut [u16; 54], visits: &mut u64, bound: u64) -> Reply {
    done(kaldvemir_upto_begin(bound, run, visits))
}

// The next diagram, after its size and the visits so far.
pub fn next(
    run: &mut [u16; 54],
    visits: &mut u64,
    s0: &mut [u16],
    s1: &mut [u16],
    word: &mut [u16],
) -> Reply {
    let mut size: u64 = 0;
    let mut items: u64 = 0;
    let refusal = kaldvemir_upto_step(run, visits, s0, s1, word, &mut size, &mut items);
    placed(refusal, size, *visits, size, items)
}

// Writes the visits.
pub fn set_visits(visits: &mut u64, value: u64) -> Reply {
    *visits = value;
    done(0)
}
