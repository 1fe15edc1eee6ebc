// A word among the words of a diagram's rootings. None_before and some_rooting ask for an accepted diagram, a stamp for each edge and an
// empty ring, which they leave empty: whoever knows its diagram to be good calls them without a check. They clear the stamps once for all
// rootings. U_comes_first looks at s0 alone, and often answers before a word is written.
#![tactic(auto)]

pub mod least;

ghost use Rattle.std.specs.Prelude.{◌≡◌, ◌↔◌, ◌≢◌, true, [], ℕ, ◌+◌, ◌<◌, length};
ghost use Rattle.lists.specs.Lists.{at};
ghost use Rattle.lists.specs.Ranges.{OneTo};
ghost use Rattle.words.specs.Order.{precedes};
ghost use Rattle.diagrams.specs.Check.{Size, Mapped, Accepts};
ghost use Rattle.pending_ring.specs.Ring.{Ring};
ghost use Rattle.labelling.specs.Labelling.{word_of};
ghost use Rattle.labelling_tracing_events.specs.Stamps.{Below};
ghost use Rattle.labelling_rootings.specs.Among.{NoneBefore, SomeRooting, UComesFirst};

use labelling_arrays::follow;
use labelling_least::second_is_lesser;
use labelling_tracing::{clear_stamps, has_word, trace};

// Whether s0 fixes the edge x: whether the word of the rooting x begins with U.
fn fixes(s0: &[u16], x: u16) -> bool
    requires { OneTo (length s0.now) x }
    ensures { (result ≡ true) ↔ (at s0.now x ≡ x) }
{
    follow(s0, x) == x
}

// Whether s0 moves every edge. It looks at all entries in any case, so that several can be looked at together.
fn moves_all(s0: &[u16]) -> bool
    requires { Size s0.now }
    ensures { (result ≡ true) ↔ ((x : ℕ) → OneTo (length s0.now) x → at s0.now x ≢ x) }
{
    let mut all = true;
    for (i, &x) in s0.iter().enumerate() {
        all &= x != (i + 1) as u16;
    }
    all
}

// Whether the root's word begins with T and some rooting's with U, so that this one comes before it: s0 moves the root and fixes some edge.
#[tactic(auto, unfolding(crate::specs::Among::UComesFirst))]
pub fn u_comes_first(s0: &[u16], root: u16) -> bool
    requires { Size s0.now × OneTo (length s0.now) root }
    ensures { (result ≡ true) ↔ UComesFirst s0.now root }
{
    if fixes(s0, root) {
        return false;
    }
    !moves_all(s0)
}

// Whether the word of the rooting x comes before own, the word of the root. The root itself is not traced; nor, where s0 fixes the root,
// is an edge that it moves, whose word begins with T and so comes after own.
fn comes_before(
    s0: &[u16],
    s1: &[u16],
    stamps: &mut [u16],
    next: &mut [u16; 1025],
    prev: &mut [u16; 1025],
    x: u16,
    root: u16,
    fixed: bool,
    own: &[u16],
) -> bool
    requires mapped { Mapped s0.now s1.now × OneTo (length s0.now) x }
    requires below { Below (length s0.now) stamps.old x }
    requires ring { Ring next.old prev.old [] }
    requires root_value { word_of s0.now s1.now root ≡ own.now }
    requires root_value_2 { fixed ≡ true → at s0.now root ≡ root }
    ensures answer { result ≡ precedes (word_of s0.now s1.now x) own.now }
    ensures stamped { Below (length s0.now) stamps.new (x + 1) }
    ensures empty { Ring next.new prev.new [] }
{
    if x == root {
        return false;
    }
    if fixed {
        if !fixes(s0, x) {
            return false;
        }
    }
    let t = trace(s0, s1, stamps, next, prev, x, own);
    let place = t.place;
    if t.ended {
        return place < own.len();
    }
    let one = [t.item; 1];
    second_is_lesser(&own[place..], &one)
}

// Whether no rooting's word comes before own, the word of the root. Where own begins with T and some rooting's word with U, that one does,
// and nothing is traced.
pub fn none_before(
    s0: &[u16],
    s1: &[u16],
    stamps: &mut [u16],
    next: &mut [u16; 1025],
    prev: &mut [u16; 1025],
    root: u16,
    own: &[u16],
) -> bool
    requires accepts { Accepts s0.now s1.now root }
    requires s0_in_bounds { length s0.now < length stamps.old }
    requires ring { Ring next.old prev.old [] }
    requires root_value { word_of s0.now s1.now root ≡ own.now }
    ensures answer { (result ≡ true) ↔ NoneBefore s0.now s1.now own.now }
    ensures empty { Ring next.new prev.new [] }
{
    if u_comes_first(s0, root) {
        return false;
    }
    let fixed = fixes(s0, root);
    let n = s0.len();
    clear_stamps(stamps, n);
    for x in 1..=n {
        if comes_before(s0, s1, stamps, next, prev, x as u16, root, fixed, own) {
            return false;
        }
    }
    true
}

// Whether some rooting has the word own.
pub fn some_rooting(
    s0: &[u16],
    s1: &[u16],
    stamps: &mut [u16],
    next: &mut [u16; 1025],
    prev: &mut [u16; 1025],
    own: &[u16],
) -> bool
    requires accepts { Accepts s0.now s1.now 1 }
    requires s0_in_bounds { length s0.now < length stamps.old }
    requires ring { Ring next.old prev.old [] }
    ensures answer { (result ≡ true) ↔ SomeRooting s0.now s1.now own.now }
    ensures empty { Ring next.new prev.new [] }
{
    let n = s0.len();
    clear_stamps(stamps, n);
    for x in 1..=n {
        if has_word(s0, s1, stamps, next, prev, x as u16, own) {
            return true;
        }
    }
    false
}
