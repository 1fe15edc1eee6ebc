// The labelling of a diagram, event by event, in lent arrays: `labels` (the label of each edge, 0 where it has none), `order` (the edge
// of each label) and the pending ring, which holds edges. Nothing of the size limit is cleared or copied for one labelling. The lists need
// only be maps: what is not reached from the root gets no label.
#![tactic(auto)]

ghost use Rattle.std.specs.Prelude.{List, [], ◌∷◌, ℕ, ◌<◌, length};
ghost use Rattle.lists.specs.Lists.{at};
ghost use Rattle.diagrams.specs.Check.{RootedMaps};
ghost use Rattle.pending_ring.specs.Ring.{Ring};
ghost use Rattle.labelling.specs.Labelling.{event};
ghost use Rattle.labelling_events.specs.Scratch.{LabelsHeld, Underway, first_event_of, EventDone};

use labelling_arrays::{add_triple, follow, give_label, join_counted};
use lists::to_index;

// An event's item, and how many labels are given and how many edges pending after it.
#[derive(Clone, Copy)]
pub struct EventItem {
    pub item: u16,
    pub given: u16,
    pub height: u16,
}

// The first event, from the root: U or T.
pub fn begin(
    s0: &[u16],
    labels: &mut [u16],
    order: &mut [u16],
    next: &mut [u16; 1025],
    prev: &mut [u16; 1025],
    root: u16,
) -> EventItem
    requires by_index { (s1 : List ℕ) × RootedMaps s0.now s1 root }
    requires labels_held { LabelsHeld labels.old order.old 0 [] × Ring next.old prev.old [] }
    requires s0_in_bounds { (length s0.now < length labels.old) × (length s0.now < length order.old) }
    ensures { (s1 : List ℕ) → RootedMaps s0.now s1 root
        → EventDone s0.now s1 labels.new order.new next.new prev.new (first_event_of s0.now root) result }
{
    let q = follow(s0, root);
    pending_ring::push(next, prev, root);
    if q == root {
        let given = give_label(labels, order, 0, root);
        return EventItem {
            item: 0,
            given,
            height: 1,
        };
    }
    let s = follow(s0, q);
    let given = add_triple(labels, order, next, prev, 0, root, q, s);
    EventItem {
        item: 1,
        given,
        height: 3,
    }
}

// The event of the edge on top of the stack, of that height: W, Jd, B or F.
pub fn event(
    s0: &[u16],
    s1: &[u16],
    labels: &mut [u16],
    order: &mut [u16],
    next: &mut [u16; 1025],
    prev: &mut [u16; 1025],
    given: u16,
    height: u16,
) -> EventItem
    requires { (o : List ℕ) × (k : ℕ) × (r : List ℕ) × Underway s0.now s1.now labels.old order.old next.old prev.old given height o (k ∷ r) }
    ensures { (o : List ℕ) (k : ℕ) (r : List ℕ) → Underway s0.now s1.now labels.old order.old next.old prev.old given height o (k ∷ r)
        → EventDone s0.now s1.now labels.new order.new next.new prev.new (event (at s0.now) (at s1.now) o k r) result }
{
    let k = pending_ring::pop(next, prev);
    let below = height - 1;
    let p = follow(s1, k);
    if p == k {
        return EventItem {
            item: 0,
            given,
            height: below,
        };
    }
    let i = to_index(p);
    let label = labels[i];
    if label != 0 {
        let item = join_counted(next, prev, p, below);
        return EventItem {
            item,
            given,
            height: below - 1,
        };
    }
    let q = follow(s0, p);
    if q == p {
        let given = give_label(labels, order, given, p);
        return EventItem {
            item: 2,
            given,
            height: below,
        };
    }
    let s = follow(s0, q);
    let given = add_triple(labels, order, next, prev, given, p, q, s);
    EventItem {
        item: 1,
        given,
        height: below + 2,
    }
}
