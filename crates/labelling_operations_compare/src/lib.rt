// Compare, with roots and without: whether two lent diagrams are isomorphic. It refuses what check refuses of the first, then of the
// second, and tells the side.
#![tactic(auto)]

ghost use Rattle.labelling_answers.specs.Promises.{ComparePromise, CompareRootedPromise, CompareUnrootedPromise};

use diagrams::check;
use labelling_answers::{Side, SideRefusal};
use labelling_isomorphism::isomorphic;

// Compares two diagrams, with their roots or without: checks the first, then the second, and tells of a refusal the side.
fn compare(
    s0: &[u16],
    s1: &[u16],
    r: u64,
    t0: &[u16],
    t1: &[u16],
    q: u64,
    rooted: bool,
) -> Result<bool, SideRefusal>
    ensures { ComparePromise rooted s0.now s1.now r t0.now t1.now q result }
{
    check(s0, s1, r).map_err(|refusal| SideRefusal {
        refusal,
        side: Side::First,
    })?;
    check(t0, t1, q).map_err(|refusal| SideRefusal {
        refusal,
        side: Side::Second,
    })?;
    Ok(isomorphic(s0, s1, r, t0, t1, q, rooted))
}

// Compares two diagrams with their roots.
pub fn compare_rooted(
    s0: &[u16],
    s1: &[u16],
    r: u64,
    t0: &[u16],
    t1: &[u16],
    q: u64,
) -> Result<bool, SideRefusal>
    ensures { CompareRootedPromise s0.now s1.now r t0.now t1.now q result }
{
    compare(s0, s1, r, t0, t1, q, true)
}

// Compares two diagrams without their roots.
pub fn compare_unrooted(
    s0: &[u16],
    s1: &[u16],
    r: u64,
    t0: &[u16],
    t1: &[u16],
    q: u64,
) -> Result<bool, SideRefusal>
    ensures { CompareUnrootedPromise s0.now s1.now r t0.now t1.now q result }
{
    compare(s0, s1, r, t0, t1, q, false)
}
