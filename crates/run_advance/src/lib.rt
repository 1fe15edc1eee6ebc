// The diagram of the next word made from that of the word before it, the word being changed in place: events are taken back from the word's end
// until an item can be raised, and the least ending is drawn as it is found. The counts of labels tell what follows, so no state is kept beside them.
#![tactic(auto)]

ghost use Rattle.std.specs.Prelude.{◌≡◌, ◌⊎◌, true, List, [], ◌∷◌, ℕ, ◌+◌, ◌-◌, ◌≤◌, length, take, drop};
ghost use Rattle.lists.specs.Ranges.{OneTo};
ghost use Rattle.words.specs.Shape.{Word};
ghost use Rattle.words_respelling.specs.SpelledSoFar.{ScratchLengths, SpelledSoFar};
ghost use Rattle.listing_successor.specs.Successor.{state_after_first, can_end, least_ending, first_word, successor};
ghost use Rattle.run_advance.specs.Drawing.{PartDrawn, EventNext, EndsLeast, Drawn, WordHeld, TakenBack};

use listing_successor_events::{can_end, least_above, least_event};
use listing_successor_states::state_after_first;
use words_respelling::{add_event, spell_all};
use words_respelling_undo::undo_event;
use words_spelling_events::{LabelCounts, begin};

// An item that can be raised: at `place` the event `event` takes its place, the labels being counted as before it. Event 0: none after the first can.
#[derive(Drop)]
struct Raise {
    place: usize,
    event: u16,
    used: u16,
    height: usize,
}

// Takes the events of a word back, from its end to the last item that can be raised.
fn take_back(
    items: &[u16; 51],
    l: usize,
    n: u16,
    stack: &mut [u16; 64],
    popped: &[u16; 64],
    s1: &mut [u16; 64],
) -> Raise
    requires { (length items.now ≡ 51) × (n ≤ 50) × (l ≤ 51) × Word n (take l items.now) × ((s0 : List ℕ) × SpelledSoFar (take l items.now) stack.old popped.now s0 s1.old n 0) }
    ensures { (s0 : List ℕ) → SpelledSoFar (take l items.now) stack.old popped.now s0 s1.old n 0
        → TakenBack n (take l items.now) result.place result.event stack.new popped.now s0 s1.new result.used result.height }
{
    let mut m = LabelCounts { used: n, height: 0 };
    for i in (1..l).rev() {
        m = undo_event(items, i, stack, popped, s1, m);
        let h = m.height;
        let used = m.used;
        let e = least_above(h as u16, n - used, items[i]);
        if 0 < e {
            return Raise {
                place: i,
                event: e,
                used,
                height: h,
            };
        }
    }
    Raise {
        place: 0,
        event: 0,
        used: n,
        height: 0,
    }
}

// Writes an item behind those before it and draws its event.
fn draw_item(
    items: &mut [u16; 51],
    place: usize,
    event: u16,
    stack: &mut [u16; 64],
    popped: &mut [u16; 64],
    s0: &mut [u16; 64],
    s1: &mut [u16; 64],
    marks: LabelCounts,
) -> LabelCounts
    requires { (n : ℕ) × (v : List ℕ) × EventNext n v items.old place event stack.old popped.old s0.old s1.old marks.used marks.height }
    ensures { (n : ℕ) (v : List ℕ) → EventNext n v items.old place event stack.old popped.old s0.old s1.old marks.used marks.height
        → PartDrawn n v items.new (place + 1) stack.new popped.new s0.new s1.new result.used result.height }
{
    items[place] = event;
    add_event(event, place, stack, popped, s0, s1, marks)
}

// Ends a word of n edges in the least way, and gives its length.
fn end_word(
    items: &mut [u16; 51],
    place: usize,
    n: u16,
    stack: &mut [u16; 64],
    popped: &mut [u16; 64],
    s0: &mut [u16; 64],
    s1: &mut [u16; 64],
    marks: LabelCounts,
) -> usize
    requires { (v : List ℕ) × PartDrawn n v items.old place stack.old popped.old s0.old s1.old marks.used marks.height
        × (drop place v ≡ least_ending marks.height (n - marks.used)) }
    ensures { (v : List ℕ) → PartDrawn n v items.old place stack.old popped.old s0.old s1.old marks.used marks.height
        → drop place v ≡ least_ending marks.height (n - marks.used) → Drawn n v result items.new stack.new popped.new s0.new s1.new }
{
    let mut m = marks;
    let mut i = place;
    while m.height != 0 {
        let e = least_event(m.height as u16, n - m.used);
        m = draw_item(items, i, e, stack, popped, s0, s1, m);
        i += 1;
    }
    i
}

// Raises the item at a place to an event, and ends the word after it in the least way.
fn raise_item(
    items: &mut [u16; 51],
    place: usize,
    event: u16,
    n: u16,
    stack: &mut [u16; 64],
    popped: &mut [u16; 64],
    s0: &mut [u16; 64],
    s1: &mut [u16; 64],
    marks: LabelCounts,
) -> usize
    requires { (v : List ℕ) × EventNext n v items.old place event stack.old popped.old s0.old s1.old marks.used marks.height
        × EndsLeast v place event marks.height (n - marks.used) }
    ensures { (v : List ℕ) → EventNext n v items.old place event stack.old popped.old s0.old s1.old marks.used marks.height
        → EndsLeast v place event marks.height (n - marks.used) → Drawn n v result items.new stack.new popped.new s0.new s1.new }
{
    let m = draw_item(items, place, event, stack, popped, s0, s1, marks);
    end_word(items, place + 1, n, stack, popped, s0, s1, m)
}

// Draws the least word of n edges that begins with U, or with T.
fn begin_word(
    items: &mut [u16; 51],
    root: u16,
    n: u16,
    stack: &mut [u16; 64],
    popped: &mut [u16; 64],
    s0: &mut [u16; 64],
    s1: &mut [u16; 64],
) -> usize
    requires { (length items.old ≡ 51) × (n ≤ 50) × (can_end (state_after_first n root).height (state_after_first n root).free ≡ true) × ScratchLengths stack.old popped.old s0.old s1.old }
    ensures { Drawn n (root ∷ least_ending (state_after_first n root).height (state_after_first n root).free) result items.new stack.new popped.new s0.new s1.new }
{
    items[0] = root;
    let m = begin(stack, s0, s1, root);
    end_word(items, 1, n, stack, popped, s0, s1, m)
}

// Draws the first word of a size.
fn first_word(
    items: &mut [u16; 51],
    n: u16,
    stack: &mut [u16; 64],
    popped: &mut [u16; 64],
    s0: &mut [u16; 64],
    s1: &mut [u16; 64],
) -> usize
    requires { (length items.old ≡ 51) × OneTo 50 n × ScratchLengths stack.old popped.old s0.old s1.old }
    ensures { Drawn n (first_word n) result items.new stack.new popped.new s0.new s1.new }
{
    let u = state_after_first(n, 0);
    if can_end(u.height, u.free) {
        return begin_word(items, 0, n, stack, popped, s0, s1);
    }
    begin_word(items, 1, n, stack, popped, s0, s1)
}

// Draws the word that follows the one in the first places, the first of the size where there is none, and gives its length; 0 after the last.
pub fn advance(
    items: &mut [u16; 51],
    l: usize,
    n: u16,
    stack: &mut [u16; 64],
    popped: &mut [u16; 64],
    s0: &mut [u16; 64],
    s1: &mut [u16; 64],
) -> usize
    requires { (length items.old ≡ 51) × OneTo 50 n × (l ≤ 51) × WordHeld n (take l items.old) stack.old popped.old s0.old s1.old }
    ensures { Drawn n (successor n (take l items.old)) result items.new stack.new popped.new s0.new s1.new }
{
    if l == 0 {
        return first_word(items, n, stack, popped, s0, s1);
    }
    let r = take_back(items, l, n, stack, popped, s1);
    if 0 < r.event {
        let marks = LabelCounts {
            used: r.used,
            height: r.height,
        };
        return raise_item(items, r.place, r.event, n, stack, popped, s0, s1, marks);
    }
    if items[0] == 0 {
        if 3 <= n {
            return begin_word(items, 1, n, stack, popped, s0, s1);
        }
    }
    0
}

// Draws a word from nothing; an empty list leaves the scratch lists as they are.
pub fn draw_word(
    word: &[u16],
    stack: &mut [u16; 64],
    popped: &mut [u16; 64],
    s0: &mut [u16; 64],
    s1: &mut [u16; 64],
)
    requires { ScratchLengths stack.old popped.old s0.old s1.old × ((n : ℕ) × (n ≤ 50) × ((word.now ≡ []) ⊎ Word n word.now)) }
    ensures { (n : ℕ) → n ≤ 50 → (word.now ≡ []) ⊎ Word n word.now → WordHeld n word.now stack.new popped.new s0.new s1.new }
{
    if word.len() != 0 {
        spell_all(word, stack, popped, s0, s1);
    }
}
