// What the invariants of a diagram count: the edges that a list fixes, and the cycles of i to s0(s1(i)), with the least common multiple of their
// lengths. The lists are known to be maps of the edges.
#![tactic(auto)]

ghost use Rattle.std.specs.Prelude.{◌≡◌, ◌≤◌, length};
ghost use Rattle.lists.specs.Lists.{at};
ghost use Rattle.lists.specs.Ranges.{OneTo};
ghost use Rattle.diagrams.specs.Check.{Mapped};
ghost use Rattle.invariants_multiples.specs.Multiples.{Held, least_common_multiple};
ghost use Rattle.invariants_cycles.specs.Cycles.{cusp_map, cycles, cycle_lengths, fixed_points, period};
ghost use Rattle.invariants_counting.specs.Marks.{CycleMarked};

use diagrams::Diagram;
use invariants_multiples::common_multiple;
use lists::to_index;

// How many cycles there are, and the least common multiple of their lengths; 0 stands for one of 2^64 or more.
#[derive(Clone, Copy)]
pub struct Cycles {
    pub count: u16,
    pub level: u64,
}

// How many edges the list fixes.
pub fn fixed(s: &[u16]) -> u16
    requires { length s.now ≤ 1024 }
    ensures { result ≡ fixed_points (length s.now) (at s.now) }
{
    let mut count: u16 = 0;
    for (i, &x) in s.iter().enumerate() {
        if to_index(x) == i + 1 {
            count += 1;
        }
    }
    count
}

// The edge after x on its cycle: s0(s1(x)).
fn next_edge(s0: &[u16], s1: &[u16], x: usize) -> usize
    requires mapped { Mapped s0.now s1.now }
    requires one_to { OneTo (length s0.now) x }
    ensures { result ≡ cusp_map (at s0.now) (at s1.now) x }
{
    let partner = to_index(s1[x - 1]);
    to_index(s0[partner - 1])
}

// Marks the cycle of edge i, and counts its edges.
fn walk(s0: &[u16], s1: &[u16], seen: &mut [u8; Diagram::MAX_SIZE], i: usize) -> u16
    requires mapped { Mapped s0.now s1.now }
    requires one_to { OneTo (length s0.now) i }
    requires seen_len { length seen.old ≡ 1024 }
    ensures value { result ≡ period (length s0.now) (cusp_map (at s0.now) (at s1.now)) i }
    ensures cycle_marked { CycleMarked (length s0.now) (cusp_map (at s0.now) (at s1.now)) i seen.old seen.new }
{
    let mut x = i;
    let mut k: u16 = 0;
    loop {
        seen[x - 1] = 1;
        x = next_edge(s0, s1, x);
        k += 1;
        if x == i {
            return k;
        }
    }
}

// Walks round each cycle once, from the least of its edges, which is the first to be met without a mark.
pub fn count_cycles(s0: &[u16], s1: &[u16]) -> Cycles
    requires { Mapped s0.now s1.now }
    ensures count_value { result.count ≡ cycles (length s0.now) (cusp_map (at s0.now) (at s1.now)) }
    ensures held { Held (least_common_multiple (cycle_lengths (length s0.now) (cusp_map (at s0.now) (at s1.now)))) result.level }
{
    let mut seen = [0u8; Diagram::MAX_SIZE];
    let mut count: u16 = 0;
    let mut level: u64 = 1;
    for i in 0..s0.len() {
        let unmarked = seen[i] != 1;
        if unmarked {
            let k = walk(s0, s1, &mut seen, i + 1);
            count += 1;
            level = common_multiple(level, k as u64);
        }
    }
    Cycles { count, level }
}
