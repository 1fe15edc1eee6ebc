// What an event does to the lent arrays of a labelling: `labels` (the label of each edge, 0 where it has none), `order` (the edge of each
// label) and the pending ring, which holds edges. The first two are as long as the caller's diagrams need: clearing arrays for the
// largest size would take longer than the labelling of a small diagram.
#![tactic(auto)]

ghost use Rattle.std.specs.Prelude.{◌≡◌, List, ◌∷◌, ℕ, suc, ◌+◌, ◌<◌, ◌≤◌, length};
ghost use Rattle.lists.specs.Lists.{at, Has, find, remove_at};
ghost use Rattle.lists.specs.Ranges.{OneTo};
ghost use Rattle.pending_ring.specs.Ring.{Ring};
ghost use Rattle.labelling_arrays.specs.Labels.{LabelsHeld};

use lists::to_index;

// The next edge round x's vertex.
pub fn follow(s: &[u16], x: u16) -> u16
    requires { OneTo (length s.now) x }
    ensures { result ≡ at s.now x }
{
    s[to_index(x) - 1]
}

// Gives edge x the next label, and returns it.
pub fn give_label(labels: &mut [u16], order: &mut [u16], given: u16, x: u16) -> u16
    requires { (given < 1024) × (suc given < length order.old) × (x < length labels.old) }
    ensures next { result ≡ given + 1 }
    ensures held { (o : List ℕ) → LabelsHeld labels.old order.old given o → LabelsHeld labels.new order.new result (x ∷ o) }
{
    let label = given + 1;
    let i = to_index(x);
    let j = to_index(label);
    labels[i] = label;
    order[j] = x;
    label
}

// The pending edge p, d places below the top, is taken out, and the item Jd returned.
fn join_at(next: &mut [u16; 1025], prev: &mut [u16; 1025], p: u16, d: usize) -> u16
    requires { (st : List ℕ) × Ring next.old prev.old st × Has p st × (d ≡ find p st) }
    ensures { (st : List ℕ) → Ring next.old prev.old st → Has p st → d ≡ find p st
        → (result ≡ suc (suc (suc (find p st)))) × Ring next.new prev.new (remove_at (find p st) st) }
{
    pending_ring::unhook(next, prev, p);
    (d + 3) as u16
}

// Jd: the partner p is pending. It is taken out, and the item returned.
pub fn join_pending(next: &mut [u16; 1025], prev: &mut [u16; 1025], p: u16) -> u16
    requires { (st : List ℕ) × Ring next.old prev.old st × Has p st }
    ensures { (st : List ℕ) → Ring next.old prev.old st → Has p st
        → (result ≡ suc (suc (suc (find p st)))) × Ring next.new prev.new (remove_at (find p st) st) }
{
    let d = pending_ring::depth(next, p);
    join_at(next, prev, p, d)
}

// The same in a stack of a known height: from 32 edges on, counting the depth from both ends is faster than from the top alone.
pub fn join_counted(next: &mut [u16; 1025], prev: &mut [u16; 1025], p: u16, height: u16) -> u16
    requires { (st : List ℕ) × Ring next.old prev.old st × Has p st × (height ≡ length st) }
    ensures { (st : List ℕ) → Ring next.old prev.old st → Has p st → height ≡ length st
        → (result ≡ suc (suc (suc (find p st)))) × Ring next.new prev.new (remove_at (find p st) st) }
{
    if height < 32 {
        return join_pending(next, prev, p);
    }
    let h = to_index(height);
    let d = pending_ring::depth_between(next, prev, p, h);
    join_at(next, prev, p, d)
}

// F: the edges p, q and s round a black vertex get the next labels, and the last two are pushed.
pub fn add_triple(
    labels: &mut [u16],
    order: &mut [u16],
    next: &mut [u16; 1025],
    prev: &mut [u16; 1025],
    given: u16,
    p: u16,
    q: u16,
    s: u16,
) -> u16
    requires given_bound { (given + 3 ≤ 1024) × OneTo 1024 p × OneTo 1024 q × OneTo 1024 s }
    requires given_in_bounds { (given + 3 < length order.old) × (p < length labels.old) × (q < length labels.old) × (s < length labels.old) }
    requires by_index { (st : List ℕ) × Ring next.old prev.old st × (¬ Has q st) × (¬ Has s (q ∷ st)) }
    ensures held { (o : List ℕ) → LabelsHeld labels.old order.old given o → LabelsHeld labels.new order.new result (s ∷ q ∷ p ∷ o) }
    ensures pushed { (st : List ℕ) → Ring next.old prev.old st → ¬ Has q st → ¬ Has s (q ∷ st) → Ring next.new prev.new (s ∷ q ∷ st) }
{
    let a = give_label(labels, order, given, p);
    let b = give_label(labels, order, a, q);
    let c = give_label(labels, order, b, s);
    pending_ring::push(next, prev, q);
    pending_ring::push(next, prev, s);
    c
}
