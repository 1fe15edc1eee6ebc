// The invariants of a diagram: the edges fixed by s1 and by s0, the cycles of i to s0(s1(i)), t, and the level, which is the least common
// multiple of the cycles' lengths. invariants takes any lists and refuses what check refuses, then a level of 2^64 or more.
#![tactic(auto)]

ghost use Rattle.std.specs.Prelude.{◌≡◌, ◌+◌, ◌*◌, ◌≤◌};
ghost use Rattle.std.proofs.Math.IntN.{sub_ℕ};
ghost use Rattle.diagrams.specs.Check.{Mapped};
ghost use Rattle.invariants.specs.Promises.{MeasuredPromise, InvariantsPromise};

use diagrams::check;
use invariants_counting::{count_cycles, fixed};
use lists::to_index;
use refusals::Refusal;

#[derive(Clone, Copy)]
pub struct Numbers {
    pub e2: u16,
    pub e3: u16,
    pub c: u16,
    pub t: i32,
    pub level: u64,
}

// 12 + n - 3 e2 - 4 e3 - 6 c
fn t(n: usize, e2: usize, e3: usize, c: usize) -> i32
    requires { (n ≤ 1024) × (e2 ≤ n) × (e3 ≤ n) × (c ≤ n) }
    ensures { result ≡ sub_ℕ (12 + n) (3 * e2 + 4 * e3 + 6 * c) }
{
    let plus = 12 + n;
    let minus = 3 * e2 + 4 * e3 + 6 * c;
    plus as i32 - minus as i32
}

// The invariants of a diagram that is known to be one. Refuses a level of 2^64 or more.
fn measure(s0: &[u16], s1: &[u16]) -> Result<Numbers, Refusal>
    requires { Mapped s0.now s1.now }
    ensures { MeasuredPromise s0.now s1.now result }
{
    let e2 = fixed(s1);
    let e3 = fixed(s0);
    let cycles = count_cycles(s0, s1);
    let c = cycles.count;
    let level = cycles.level;
    let outgrown = level == 0;
    if outgrown {
        return Err(Refusal::LevelTooLarge);
    }
    let t = t(s0.len(), to_index(e2), to_index(e3), to_index(c));
    Ok(Numbers {
        e2,
        e3,
        c,
        t,
        level,
    })
}

// The invariants of a lent diagram. Refuses what check refuses, then a level of 2^64 or more.
pub fn invariants(s0: &[u16], s1: &[u16], root: u64) -> Result<Numbers, Refusal>
    ensures { InvariantsPromise s0.now s1.now root result }
{
    check(s0, s1, root)?;
    measure(s0, s1)
}
