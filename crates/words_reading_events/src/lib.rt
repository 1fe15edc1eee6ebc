// The events of reading a word: what an item makes of the label that was popped. The labels given so far stand
// in two arrays, the pending ones in a ring; an event that is refused changes neither.
#![tactic(auto)]

ghost use Rattle.std.specs.Prelude.{◌≡◌, List, ◌∷◌, ℕ, suc, ◌+◌, ◌≤◌, ◌<◌, length};
ghost use Rattle.lists.specs.Lists.{Has};
ghost use Rattle.lists.specs.Ranges.{OneTo};
ghost use Rattle.pending_ring.specs.Ring.{Ring};
ghost use Rattle.words_reading_events.specs.Items.{items};
ghost use Rattle.words_reading_events.specs.State.{State, ReadingHeld, ReadingAfter, three_black, three_white};

use diagrams::Diagram;
use lists::{pair, to_index};
use refusals::Refusal;

// How many labels are given, and how many of them are pending.
#[derive(Clone, Copy)]
pub struct LabelCounts {
    pub used: u16,
    pub height: u16,
}

// W: the label that was popped is its own white partner, as the list has it already.
pub fn close_alone(counts: LabelCounts) -> Result<LabelCounts, Refusal>
    ensures { result ≡ Ok counts }
{
    Ok(counts)
}

// The two labels from l on, pushed one after the other.
pub fn push_two(next: &mut [u16; 1025], prev: &mut [u16; 1025], l: u16)
    requires l_nonzero { (0 < l) × (l + 1 < 1025) }
    requires by_index { (s : List ℕ) × Ring next.old prev.old s × ¬ Has l s }
    ensures { (s : List ℕ) → Ring next.old prev.old s → ¬ Has l s → ¬ Has (l + 1) s → Ring next.new prev.new ((l + 1) ∷ l ∷ s) }
{
    pending_ring::push(next, prev, l);
    pending_ring::push(next, prev, l + 1);
}

// Three labels on a black vertex, the first of them the partner of k; the other two are their own for now.
fn give_three(
    x0: &mut [u16; Diagram::MAX_SIZE],
    x1: &mut [u16; Diagram::MAX_SIZE],
    k: u16,
    used: u16,
)
    requires { OneTo used k × (used + 3 ≤ 1024) × (length x1.old ≡ 1024) }
    ensures { (x0.new ≡ three_black x0.old used) × (x1.new ≡ three_white x1.old k used) }
{
    let place = to_index(used);
    x0[place] = used + 2;
    x0[place + 1] = used + 3;
    x0[place + 2] = used + 1;
    pair(x1, k, used + 1);
    x1[place + 1] = used + 2;
    x1[place + 2] = used + 3;
}

// F: the partner of k is the next free label, on a black vertex with the two labels after it, which are pushed.
pub fn add_triple(
    next: &mut [u16; 1025],
    prev: &mut [u16; 1025],
    x0: &mut [u16; Diagram::MAX_SIZE],
    x1: &mut [u16; Diagram::MAX_SIZE],
    k: u16,
    counts: LabelCounts,
) -> Result<LabelCounts, Refusal>
    requires one_to { OneTo counts.used k }
    requires reading_held { (t : State) × ReadingHeld next.old prev.old x0.old x1.old counts.used counts.height t }
    ensures { (t : State) → ReadingHeld next.old prev.old x0.old x1.old counts.used counts.height t → (w : List ℕ)
        → ReadingAfter (items (1 ∷ w) (k ∷ t.stack) t.black t.white) w result next.new prev.new x0.new x1.new }
{
    let used = counts.used;
    if (Diagram::MAX_SIZE as u16) < used + 3 {
        return Err(Refusal::LabelTooLarge);
    }
    give_three(x0, x1, k, used);
    push_two(next, prev, used + 2);
    Ok(LabelCounts {
        used: used + 3,
        height: counts.height + 2,
    })
}

// B: the partner of k is the next free label, alone on its black vertex.
pub fn add_alone(
    x0: &mut [u16; Diagram::MAX_SIZE],
    x1: &mut [u16; Diagram::MAX_SIZE],
    k: u16,
    counts: LabelCounts,
) -> Result<LabelCounts, Refusal>
    requires one_to { OneTo counts.used k }
    requires by_index { (nx pv : List ℕ) × (t : State) × ReadingHeld nx pv x0.old x1.old counts.used counts.height t }
    ensures { (nx pv : List ℕ) (t : State) → ReadingHeld nx pv x0.old x1.old counts.used counts.height t → (w : List ℕ)
        → ReadingAfter (items (2 ∷ w) (k ∷ t.stack) t.black t.white) w result nx pv x0.new x1.new }
{
    let used = counts.used;
    if (Diagram::MAX_SIZE as u16) < used + 1 {
        return Err(Refusal::LabelTooLarge);
    }
    let place = to_index(used);
    x0[place] = used + 1;
    pair(x1, k, used + 1);
    Ok(LabelCounts {
        used: used + 1,
        height: counts.height,
    })
}

// Jd: the partner of k is the pending label d places below the top; it is taken out.
pub fn join_pending(
    next: &mut [u16; 1025],
    prev: &mut [u16; 1025],
    x1: &mut [u16; Diagram::MAX_SIZE],
    k: u16,
    d: u16,
    counts: LabelCounts,
) -> Result<LabelCounts, Refusal>
    requires one_to { OneTo counts.used k }
    requires by_index { (x0 : List ℕ) × (t : State) × ReadingHeld next.old prev.old x0 x1.old counts.used counts.height t }
    ensures { (x0 : List ℕ) (t : State) → ReadingHeld next.old prev.old x0 x1.old counts.used counts.height t → (w : List ℕ)
        → ReadingAfter (items (suc (suc (suc d)) ∷ w) (k ∷ t.stack) t.black t.white) w result next.new prev.new x0 x1.new }
{
    if counts.height <= d {
        return Err(Refusal::JoinTooDeep);
    }
    let p = pending_ring::label_below(next, prev, to_index(d), to_index(counts.height));
    pending_ring::unhook(next, prev, p);
    pair(x1, k, p);
    Ok(LabelCounts {
        used: counts.used,
        height: counts.height - 1,
    })
}
