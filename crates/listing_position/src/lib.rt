// Position of a diagram: the ranking of its word among the words of its size. It refuses 1 to 8 as check does, then 31.
#![tactic(auto)]

ghost use Rattle.std.specs.Prelude.{◌<◌, length};
ghost use Rattle.listing_ranking.specs.Promises.{PositionPromise};

use diagrams::Diagram;
use labelling_check::check_and_label;
use listing_places::ranking::position_of;
use refusals::Refusal;

// A diagram too large to be listed: 31, unless check refuses it.
fn unlisted(s0: &[u16], s1: &[u16], root: u64) -> Result<u64, Refusal>
    requires { 50 < length s0.now }
    ensures { PositionPromise s0.now s1.now root result }
{
    diagrams::check(s0, s1, root)?;
    Err(Refusal::ListedSizeOutOfRange)
}

// The position of a diagram: that of its word among the words of its size. Refuses 1 to 8 as check does, then 31. The labelling serves for
// check's search, and no list is relabelled.
pub fn position(s0: &[u16], s1: &[u16], root: u64) -> Result<u64, Refusal>
    ensures { PositionPromise s0.now s1.now root result }
{
    let n = s0.len();
    if Diagram::MAX_LISTED < n {
        return unlisted(s0, s1, root);
    }
    let mut labels = [0u16; Diagram::MAX_LISTED + 1];
    let mut order = [0u16; Diagram::MAX_LISTED + 1];
    let mut word = [0u16; Diagram::MAX_LISTED + 1];
    let length = check_and_label(s0, s1, root, &mut labels, &mut order, &mut word)?;
    Ok(position_of(n, &word[..length]))
}
