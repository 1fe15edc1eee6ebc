// The keep marks of a block that is written. The stamps and the ring are made once for the block, and its diagrams are not checked:
// they are those of a run.
#![tactic(auto)]

ghost use Rattle.std.specs.Prelude.{ℕ, ◌≤◌, length};
ghost use Rattle.run_marks.specs.Marks.{BlockHeld, MarksWritten};

use lists::to_index;
use run_mark::mark;

// Marks the rows of a block that is written: which of its diagrams are kept.
pub fn mark_rows(
    n: usize,
    rows: usize,
    s0: &[u16],
    s1: &[u16],
    words: &[u16],
    lengths: &[u16],
    marks: &mut [u8],
)
    requires { ((p : ℕ) × BlockHeld n p rows s0.now s1.now words.now lengths.now) × (rows ≤ length marks.old) }
    ensures { (p : ℕ) → BlockHeld n p rows s0.now s1.now words.now lengths.now
        → MarksWritten n p rows marks.old marks.new }
{
    let mut stamps = [0u16; 51];
    let mut next = [0u16; 1025];
    let mut prev = [0u16; 1025];
    let mut edge: usize = 0;
    let mut place: usize = 0;
    for i in 0..rows {
        let after = edge + n;
        let end = place + to_index(lengths[i]);
        let m = mark(
            &s0[edge..after],
            &s1[edge..after],
            &mut stamps,
            &mut next,
            &mut prev,
            &words[place..end],
        );
        marks[i] = m;
        edge = after;
        place = end;
    }
}
