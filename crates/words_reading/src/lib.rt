// Reading a word: the diagram that it spells, or the refusal.
// The items are read one by one into two local arrays; the lent lists are written only when the whole word is known to be good
// and both lists to have room.
#![tactic(auto)]

ghost use Rattle.std.specs.Prelude.{◌≡◌, List, [], ◌∷◌, ℕ, ◌<◌, length};
ghost use Rattle.pending_ring.specs.Ring.{Ring};
ghost use Rattle.words_reading.specs.Read.{read_first, with_room, reading_answer, ReadPromise};
ghost use Rattle.words_reading_events.specs.State.{State, after_u, after_t, read_on, ReadingHeld, ReadingAfter};

use diagrams::Diagram;
use lists::{fill, to_index};
use refusals::Refusal;
use words_reading_events::{
    LabelCounts, add_alone, add_triple, close_alone, join_pending, push_two,
};

// U: the root is alone on its black vertex.
fn start_alone(
    next: &mut [u16; 1025],
    prev: &mut [u16; 1025],
    x0: &mut [u16; Diagram::MAX_SIZE],
    x1: &mut [u16; Diagram::MAX_SIZE],
) -> LabelCounts
    requires { Ring next.old prev.old [] × (length x0.old ≡ 1024) × (length x1.old ≡ 1024) }
    ensures { ReadingHeld next.new prev.new x0.new x1.new result.used result.height after_u }
{
    x0[0] = 1;
    x1[0] = 1;
    pending_ring::push(next, prev, 1);
    LabelCounts { used: 1, height: 1 }
}

// T: the root's black vertex is 1, 2, 3.
fn start_triple(
    next: &mut [u16; 1025],
    prev: &mut [u16; 1025],
    x0: &mut [u16; Diagram::MAX_SIZE],
    x1: &mut [u16; Diagram::MAX_SIZE],
) -> LabelCounts
    requires { Ring next.old prev.old [] × (length x0.old ≡ 1024) × (length x1.old ≡ 1024) }
    ensures { ReadingHeld next.new prev.new x0.new x1.new result.used result.height after_t }
{
    x0[0] = 2;
    x0[1] = 3;
    x0[2] = 1;
    x1[0] = 1;
    x1[1] = 2;
    x1[2] = 3;
    pending_ring::push(next, prev, 1);
    push_two(next, prev, 2);
    LabelCounts { used: 3, height: 3 }
}

// One item after the first.
fn event(
    next: &mut [u16; 1025],
    prev: &mut [u16; 1025],
    x0: &mut [u16; Diagram::MAX_SIZE],
    x1: &mut [u16; Diagram::MAX_SIZE],
    item: u16,
    counts: LabelCounts,
) -> Result<LabelCounts, Refusal>
    requires { (t : State) × ReadingHeld next.old prev.old x0.old x1.old counts.used counts.height t }
    ensures { (t : State) → ReadingHeld next.old prev.old x0.old x1.old counts.used counts.height t → (w : List ℕ)
        → ReadingAfter (read_on (item ∷ w) t) w result next.new prev.new x0.new x1.new }
{
    if counts.height == 0 {
        return Err(Refusal::NoEdgePending);
    }
    let k = pending_ring::pop(next, prev);
    let left = LabelCounts {
        used: counts.used,
        height: counts.height - 1,
    };
    match item {
        0 => close_alone(left),
        1 => add_triple(next, prev, x0, x1, k, left),
        2 => add_alone(x0, x1, k, left),
        _ => join_pending(next, prev, x1, k, item - 3, left),
    }
}

// The items after the first, one by one, up to the first that is refused.
fn events(
    rest: &[u16],
    next: &mut [u16; 1025],
    prev: &mut [u16; 1025],
    x0: &mut [u16; Diagram::MAX_SIZE],
    x1: &mut [u16; Diagram::MAX_SIZE],
    mut counts: LabelCounts,
) -> Result<LabelCounts, Refusal>
    requires { (t : State) × ReadingHeld next.old prev.old x0.old x1.old counts.used counts.height t }
    ensures { (t : State) → ReadingHeld next.old prev.old x0.old x1.old counts.used counts.height t
        → ReadingAfter (read_on rest.now t) [] result next.new prev.new x0.new x1.new }
{
    for &item in rest {
        counts = event(next, prev, x0, x1, item, counts)?;
    }
    Ok(counts)
}

// All items of a word that has one.
fn spelled(
    word: &[u16],
    next: &mut [u16; 1025],
    prev: &mut [u16; 1025],
    x0: &mut [u16; Diagram::MAX_SIZE],
    x1: &mut [u16; Diagram::MAX_SIZE],
) -> Result<LabelCounts, Refusal>
    requires word_nonzero { 0 < length word.now }
    requires ring { Ring next.old prev.old [] × (length x0.old ≡ 1024) × (length x1.old ≡ 1024) }
    ensures { ReadingAfter (read_first word.now) [] result next.new prev.new x0.new x1.new }
{
    let counts = match word[0] {
        0 => start_alone(next, prev, x0, x1),
        1 => start_triple(next, prev, x0, x1),
        _ => return Err(Refusal::FirstItem),
    };
    events(&word[1..], next, prev, x0, x1, counts)
}

// The end of the items: nothing may be pending, both lists must have room, and then they are written.
fn finish(
    counts: LabelCounts,
    x0: &[u16],
    x1: &[u16],
    s0: &mut [u16],
    s1: &mut [u16],
) -> Result<u16, Refusal>
    requires { (nx pv : List ℕ) × (t : State) × ReadingHeld nx pv x0.now x1.now counts.used counts.height t }
    ensures { (nx pv : List ℕ) (t : State) → ReadingHeld nx pv x0.now x1.now counts.used counts.height t
        → ReadPromise (with_room (read_on [] t) (length s0.old) (length s1.old)) result s0.old s1.old s0.new s1.new }
{
    if counts.height != 0 {
        return Err(Refusal::EdgesPending);
    }
    let n = to_index(counts.used);
    if s0.len() < n {
        return Err(Refusal::ListShort);
    }
    if s1.len() < n {
        return Err(Refusal::ListShort);
    }
    fill(s0, &x0[..n]);
    fill(s1, &x1[..n]);
    Ok(counts.used)
}

// Reads a word: 21 empty or above 1,025 items; then item by item 26 an item after the stack has emptied, 22 a first item that is
// not 0 or 1, 23 Jd with d not below the stack's height after the pop, 24 a label above 1,024; at the end 25 edges pending,
// and 9 a list is short. Accepted, the diagram's lists stand in the first places of s0 and s1, and its size is returned.
pub fn read_word(word: &[u16], s0: &mut [u16], s1: &mut [u16]) -> Result<u16, Refusal>
    ensures { ReadPromise (reading_answer word.now (length s0.old) (length s1.old)) result s0.old s1.old s0.new s1.new }
{
    if word.len() == 0 {
        return Err(Refusal::WordLength);
    }
    if Diagram::MAX_SIZE + 1 < word.len() {
        return Err(Refusal::WordLength);
    }
    let mut next: [u16; 1025] = [0; 1025];
    let mut prev: [u16; 1025] = [0; 1025];
    let mut x0: [u16; Diagram::MAX_SIZE] = [0; Diagram::MAX_SIZE];
    let mut x1: [u16; Diagram::MAX_SIZE] = [0; Diagram::MAX_SIZE];
    let counts = spelled(word, &mut next, &mut prev, &mut x0, &mut x1)?;
    finish(counts, &x0, &x1, s0, s1)
}
