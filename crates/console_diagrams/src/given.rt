// The commands on a diagram that is given, or on two.
use console_commands::arguments::entries_of;
use console_replies::{Reply, compared, done, marked, numbered, shown, valued};
use kaldvemir::given::{
    kaldvemir_check, kaldvemir_compare_rooted, kaldvemir_compare_unrooted, kaldvemir_invariants,
    kaldvemir_kept, kaldvemir_relabel, kaldvemir_symmetries,
};
use kaldvemir::listed::kaldvemir_position;

pub fn check(s0: &[u16], s1: &[u16], root: u64) -> Reply {
    done(kaldvemir_check(s0, s1, root))
}

pub fn symmetries(s0: &[u16], s1: &[u16], root: u64) -> Reply {
    let mut count: u64 = 0;
    let refusal = kaldvemir_symmetries(s0, s1, root, &mut count);
    valued(refusal, count)
}

pub fn position(s0: &[u16], s1: &[u16], root: u64) -> Reply {
    let mut position: u64 = 0;
    let refusal = kaldvemir_position(s0, s1, root, &mut position);
    valued(refusal, position)
}

pub fn kept(s0: &[u16], s1: &[u16], root: u64) -> Reply {
    let mut mark: u64 = 0;
    let refusal = kaldvemir_kept(s0, s1, root, &mut mark);
    marked(refusal, mark, 0)
}

pub fn invariants(s0: &[u16], s1: &[u16], root: u64) -> Reply {
    let mut e2: u16 = 0;
    let mut e3: u16 = 0;
    let mut c: u16 = 0;
    let mut t: i32 = 0;
    let mut level: u64 = 0;
    let refusal = kaldvemir_invariants(s0, s1, root, &mut e2, &mut e3, &mut c, &mut t, &mut level);
    numbered(refusal, e2, e3, c, level, t)
}

pub fn relabel(
    s0: &[u16],
    s1: &[u16],
    root: u64,
    t0: &mut [u16],
    t1: &mut [u16],
    word: &mut [u16],
) -> Reply {
    let mut items: u64 = 0;
    let refusal = kaldvemir_relabel(s0, s1, root, t0, t1, word, &mut items);
    shown(refusal, s0.len() as u64, items)
}

// The second diagram has its lists and its root as arguments 4 to 6.
pub fn compare_rooted(
    s0: &[u16],
    s1: &[u16],
    root: u64,
    entries: &[u16],
    values: [u64; 16],
) -> Reply {
    let t0 = entries_of(entries, values, 4);
    let t1 = entries_of(entries, values, 5);
    let mut same: u64 = 0;
    let mut side: u64 = 0;
    let refusal = kaldvemir_compare_rooted(s0, s1, root, t0, t1, values[6], &mut same, &mut side);
    compared(refusal, same, side)
}

pub fn compare_unrooted(
    s0: &[u16],
    s1: &[u16],
    root: u64,
    entries: &[u16],
    values: [u64; 16],
) -> Reply {
    let t0 = entries_of(entries, values, 4);
    let t1 = entries_of(entries, values, 5);
    let mut same: u64 = 0;
    let mut side: u64 = 0;
    let refusal = kaldvemir_compare_unrooted(s0, s1, root, t0, t1, values[6], &mut same, &mut side);
    compared(refusal, same, side)
}
