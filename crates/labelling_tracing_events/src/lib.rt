// The labelling of a diagram, event by event, where of each edge only that it is labelled is kept: its stamp is then the number of the
// labelling. A next labelling has a greater number, so that nothing is cleared between the two. The pending ring holds edges.
//
// No generic code with labelling_events: that keeps each edge's label, the edge of each label and the stack's height, this one stamp an edge, so
// a trait would need a contract for each step.
#![tactic(auto)]

ghost use Rattle.std.specs.Prelude.{◌≡◌, List, [], ◌∷◌, ℕ, ◌<◌, length, set};
ghost use Rattle.lists.specs.Lists.{at, Has};
ghost use Rattle.lists.specs.Ranges.{OneTo};
ghost use Rattle.diagrams.specs.Check.{Mapped};
ghost use Rattle.pending_ring.specs.Ring.{Ring};
ghost use Rattle.labelling.specs.Labelling.{event};
ghost use Rattle.labelling_events.specs.Scratch.{first_event_of};
ghost use Rattle.labelling_tracing_events.specs.Stamps.{Below, Underway, EventDone};

use labelling_arrays::{follow, join_pending};
use lists::to_index;

// An event's item, and how many labels are given after it.
#[derive(Clone, Copy)]
pub struct EventItem {
    pub item: u16,
    pub given: u16,
}

// Labels edge x: gives it the stamp.
fn stamp_edge(stamps: &mut [u16], stamp: u16, x: u16)
    requires { x < length stamps.old }
    ensures { stamps.new ≡ set stamps.old x stamp }
{
    let i = to_index(x);
    stamps[i] = stamp;
}

// F: the edges p, q and s round a black vertex are labelled, and the last two are pushed.
fn add_triple(
    stamps: &mut [u16],
    stamp: u16,
    next: &mut [u16; 1025],
    prev: &mut [u16; 1025],
    p: u16,
    q: u16,
    s: u16,
)
    requires p_in_bounds { (p < length stamps.old) × (q < length stamps.old) × (s < length stamps.old) × OneTo 1024 q × OneTo 1024 s }
    requires by_index { (st : List ℕ) × Ring next.old prev.old st × (¬ Has q st) × (¬ Has s (q ∷ st)) }
    ensures stamped { stamps.new ≡ set (set (set stamps.old p stamp) q stamp) s stamp }
    ensures pushed { (st : List ℕ) → Ring next.old prev.old st → ¬ Has q st → ¬ Has s (q ∷ st) → Ring next.new prev.new (s ∷ q ∷ st) }
{
    stamp_edge(stamps, stamp, p);
    stamp_edge(stamps, stamp, q);
    stamp_edge(stamps, stamp, s);
    pending_ring::push(next, prev, q);
    pending_ring::push(next, prev, s);
}

// The first event, from the root: U or T.
pub fn begin(
    s0: &[u16],
    stamps: &mut [u16],
    stamp: u16,
    next: &mut [u16; 1025],
    prev: &mut [u16; 1025],
    root: u16,
) -> EventItem
    requires by_index { ((s1 : List ℕ) × Mapped s0.now s1) × OneTo (length s0.now) root }
    requires below { Below (length s0.now) stamps.old stamp }
    requires ring { Ring next.old prev.old [] }
    ensures { (s1 : List ℕ) → Mapped s0.now s1
        → EventDone s0.now s1 stamps.new stamp next.new prev.new (first_event_of s0.now root) result }
{
    let q = follow(s0, root);
    pending_ring::push(next, prev, root);
    if q == root {
        stamp_edge(stamps, stamp, root);
        return EventItem { item: 0, given: 1 };
    }
    let s = follow(s0, q);
    add_triple(stamps, stamp, next, prev, root, q, s);
    EventItem { item: 1, given: 3 }
}

// The event of the edge on top of the stack: W, Jd, B or F.
pub fn event(
    s0: &[u16],
    s1: &[u16],
    stamps: &mut [u16],
    stamp: u16,
    next: &mut [u16; 1025],
    prev: &mut [u16; 1025],
    given: u16,
) -> EventItem
    requires { (o : List ℕ) × (k : ℕ) × (r : List ℕ) × Underway s0.now s1.now stamps.old stamp next.old prev.old given o (k ∷ r) }
    ensures { (o : List ℕ) (k : ℕ) (r : List ℕ) → Underway s0.now s1.now stamps.old stamp next.old prev.old given o (k ∷ r)
        → EventDone s0.now s1.now stamps.new stamp next.new prev.new (event (at s0.now) (at s1.now) o k r) result }
{
    let k = pending_ring::pop(next, prev);
    let p = follow(s1, k);
    if p == k {
        return EventItem { item: 0, given };
    }
    let i = to_index(p);
    if stamps[i] == stamp {
        let item = join_pending(next, prev, p);
        return EventItem { item, given };
    }
    let q = follow(s0, p);
    if q == p {
        stamp_edge(stamps, stamp, p);
        return EventItem {
            item: 2,
            given: given + 1,
        };
    }
    let s = follow(s0, q);
    add_triple(stamps, stamp, next, prev, p, q, s);
    EventItem {
        item: 1,
        given: given + 3,
    }
}
