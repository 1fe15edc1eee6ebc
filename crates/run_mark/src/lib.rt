// The keep mark of one diagram of a block, which is known to be accepted, with lent stamps and a lent ring that is left empty.
#![tactic(auto)]

ghost use Rattle.std.specs.Prelude.{◌≡◌, ◌⊎◌, [], ◌<◌, length};
ghost use Rattle.diagrams.specs.Check.{Accepts};
ghost use Rattle.pending_ring.specs.Ring.{Ring};
ghost use Rattle.labelling.specs.Labelling.{word_of};
ghost use Rattle.labelling_rootings.specs.Among.{NoneBefore};

use labelling_rootings::none_before;

// 1 where no rooting's word comes before own, the word of the root 1, and 0 where one does.
pub fn mark(
    s0: &[u16],
    s1: &[u16],
    stamps: &mut [u16],
    next: &mut [u16; 1025],
    prev: &mut [u16; 1025],
    own: &[u16],
) -> u8
    requires accepts { Accepts s0.now s1.now 1 }
    requires s0_in_bounds { length s0.now < length stamps.old }
    requires ring { Ring next.old prev.old [] }
    requires s1_value { word_of s0.now s1.now 1 ≡ own.now }
    ensures answer { ((result ≡ 1) × NoneBefore s0.now s1.now own.now)
        ⊎ ((result ≡ 0) × (¬ NoneBefore s0.now s1.now own.now)) }
    ensures empty { Ring next.new prev.new [] }
{
    if none_before(s0, s1, stamps, next, prev, 1, own) {
        return 1;
    }
    0
}
