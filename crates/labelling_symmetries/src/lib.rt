// How many of a diagram's rootings have a word. It asks for an accepted diagram, a stamp for each edge and an empty ring, which it leaves
// empty.
#![tactic(auto)]

ghost use Rattle.std.specs.Prelude.{◌≡◌, [], ◌<◌, length};
ghost use Rattle.diagrams.specs.Check.{Accepts};
ghost use Rattle.pending_ring.specs.Ring.{Ring};
ghost use Rattle.labelling_rootings.specs.Among.{rootings_with};

use labelling_tracing::{clear_stamps, has_word};

// How many rootings have the word own.
pub fn rootings_with(
    s0: &[u16],
    s1: &[u16],
    stamps: &mut [u16],
    next: &mut [u16; 1025],
    prev: &mut [u16; 1025],
    own: &[u16],
) -> u16
    requires accepts { Accepts s0.now s1.now 1 }
    requires s0_in_bounds { length s0.now < length stamps.old }
    requires ring { Ring next.old prev.old [] }
    ensures number { result ≡ rootings_with s0.now s1.now own.now }
    ensures empty { Ring next.new prev.new [] }
{
    let n = s0.len();
    clear_stamps(stamps, n);
    let mut found: u16 = 0;
    for x in 1..=n {
        found += u16::from(has_word(s0, s1, stamps, next, prev, x as u16, own));
    }
    found
}
