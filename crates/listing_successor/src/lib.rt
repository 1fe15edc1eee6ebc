// The word that follows a word in dictionary order among the words of its size, and whether a list is a word of a size at all. Both
// go by the stack's height and the labels left, so that no diagram is made and no table is needed.
#![tactic(auto)]

ghost use Rattle.std.specs.Prelude.{◌≡◌, ◌⊎◌, true, false, [], ℕ, ◌+◌, ◌≤◌};
ghost use Rattle.lists.specs.Ranges.{OneTo};
ghost use Rattle.words.specs.Shape.{Fits, Word};
ghost use Rattle.listing_successor.specs.Successor.{stack_state, first_word, successor, word_as_held, shared_word};
ghost use Rattle.listing_successor.specs.Promises.{SuccessorPromise};
ghost use Rattle.listing_successor.specs.Reading.{ReadsTo, Raises};

use listing_successor_endings::{Next, least_word, raise_at};
use listing_successor_events::{can_end, least_above};
use listing_successor_states::{StackState, stack_state, state_after_first, state_after_item};

// A word in the first places of 51, with zeros after it.
#[derive(Clone, Copy)]
pub struct Held {
    pub length: usize,
    pub items: [u16; 51],
}

// An item that can be raised: at `place` the event `event` takes its place and leads to a state. Event 0: no item can.
#[derive(Clone, Copy)]
struct Raise {
    place: usize,
    event: u16,
    height: u16,
    free: u16,
}

// The state at which an item was read, from the state after it.
fn state_before(height: u16, free: u16, item: u16) -> StackState
    requires { (height + free ≤ 50) × ((h f : ℕ) × ReadsTo h f item height free) }
    ensures { (h f : ℕ) → ReadsTo h f item height free → result ≡ stack_state h f }
{
    if item == 0 {
        return stack_state(height + 1, free);
    }
    if item == 1 {
        return stack_state(height - 1, free + 3);
    }
    if item == 2 {
        return stack_state(height + 1, free + 1);
    }
    stack_state(height + 2, free)
}

// Whether the items, read from a state on, empty the stack just as they use up the labels.
fn fits(items: &[u16], height: u16, free: u16) -> bool
    requires { height + free ≤ 50 }
    ensures { (result ≡ true → Fits height free items.now) × (result ≡ false → ¬ Fits height free items.now) }
{
    let mut h = height;
    let mut f = free;
    for &item in items {
        let l = state_after_item(h, f, item);
        h = l.height;
        f = l.free;
    }
    if h == 0 {
        return f == 0;
    }
    false
}

// Whether a list is a word of a diagram of n edges.
pub fn is_word(word: &[u16], n: u16) -> bool
    requires { n ≤ 50 }
    ensures { (result ≡ true → Word n word.now) × (result ≡ false → ¬ Word n word.now) }
{
    if word.len() == 0 {
        return false;
    }
    let l = state_after_first(n, word[0]);
    fits(&word[1..], l.height, l.free)
}

// The last item that can be raised, found by reading the items backwards from the emptied stack.
fn last_raise(items: &[u16]) -> Raise
    requires { (h f : ℕ) × Fits h f items.now × (h + f ≤ 50) }
    ensures { (h f : ℕ) → Fits h f items.now → h + f ≤ 50 → Raises h f items.now result.place result.event result.height result.free }
{
    let mut h: u16 = 0;
    let mut f: u16 = 0;
    for i in (0..items.len()).rev() {
        let x = items[i];
        let l = state_before(h, f, x);
        let e = least_above(l.height, l.free, x);
        if 0 < e {
            let t = state_after_item(l.height, l.free, e);
            return Raise {
                place: i,
                event: e,
                height: t.height,
                free: t.free,
            };
        }
        h = l.height;
        f = l.free;
    }
    Raise {
        place: 0,
        event: 0,
        height: 0,
        free: 0,
    }
}

// The first word of a size.
fn first_word(n: u16) -> Next
    requires { OneTo 50 n }
    ensures { result ≡ shared_word 0 (first_word n) }
{
    let u = state_after_first(n, 0);
    if can_end(u.height, u.free) {
        return least_word(n, 0);
    }
    least_word(n, 1)
}

// The word that follows a word of n edges: the first after the empty list, and the empty list after the last.
fn successor(word: &[u16], n: u16) -> Next
    requires { OneTo 50 n × ((word.now ≡ []) ⊎ Word n word.now) }
    ensures { SuccessorPromise n word.now result }
{
    if word.len() == 0 {
        return first_word(n);
    }
    let r = last_raise(&word[1..]);
    if 0 < r.event {
        return raise_at(word, r.place + 1, r.event, r.height, r.free);
    }
    if word[0] == 0 {
        if 3 <= n {
            return least_word(n, 1);
        }
    }
    Next {
        shared: 0,
        length: 0,
        items: [0u16; 51],
    }
}

// The same word, held by itself.
pub fn successor_word(word: &[u16], n: u16) -> Held
    requires { OneTo 50 n × ((word.now ≡ []) ⊎ Word n word.now) }
    ensures { result ≡ word_as_held (successor n word.now) }
{
    let next = successor(word, n);
    let items = next.items;
    Held {
        length: next.length,
        items,
    }
}
