// A word ended in the least way, after a beginning that it shares with another.
#![tactic(auto)]

ghost use Rattle.std.specs.Prelude.{◌≡◌, true, List, ◌∷◌, ◌++◌, ℕ, ◌+◌, ◌≤◌, length, take};
ghost use Rattle.listing_successor_states.specs.States.{state_after_first};
ghost use Rattle.listing_successor_events.specs.Events.{can_end};
ghost use Rattle.listing_successor_endings.specs.Endings.{least_ending, padded_word, shared_word};

use listing_successor_events::least_event;
use listing_successor_states::{state_after_first, state_after_item};
use lists::fill;

// The word that follows a word, in the first places of 51 with zeros after it, and how many items both begin with.
#[derive(Clone, Copy)]
pub struct Next {
    pub shared: usize,
    pub length: usize,
    pub items: [u16; 51],
}

// Writes the least way to end after the first `place` items, and gives the length of the word.
fn end_word(items: &mut [u16; 51], place: usize, height: u16, free: u16) -> usize
    requires { (p : List ℕ) × (items.old ≡ padded_word p) × (place ≡ length p) × (place + length (least_ending height free) ≤ 51) × (can_end height free ≡ true) × (height + free ≤ 50) }
    ensures { (p : List ℕ) → items.old ≡ padded_word p → place ≡ length p → (items.new ≡ padded_word (p ++ least_ending height free)) × (result ≡ length (p ++ least_ending height free)) }
{
    let mut i = place;
    let mut h = height;
    let mut f = free;
    // The height, and not the index, ends the loop.
    while h != 0 {
        let e = least_event(h, f);
        items[i] = e;
        let l = state_after_item(h, f, e);
        h = l.height;
        f = l.free;
        i += 1;
    }
    i
}

// Writes an event after the first `place` items, and the least way to end after it.
fn append_event(items: &mut [u16; 51], place: usize, event: u16, height: u16, free: u16) -> usize
    requires { (p : List ℕ) × (items.old ≡ padded_word p) × (place ≡ length p) × (place + 1 + length (least_ending height free) ≤ 51) × (can_end height free ≡ true) × (height + free ≤ 50) }
    ensures { (p : List ℕ) → items.old ≡ padded_word p → place ≡ length p
        → (items.new ≡ padded_word (p ++ (event ∷ least_ending height free))) × (result ≡ length (p ++ (event ∷ least_ending height free))) }
{
    items[place] = event;
    end_word(items, place + 1, height, free)
}

// The least word of a size that begins with U, or with T.
pub fn least_word(n: u16, root: u16) -> Next
    requires { (n ≤ 50) × (can_end (state_after_first n root).height (state_after_first n root).free ≡ true) }
    ensures { result ≡ shared_word 0 (root ∷ least_ending (state_after_first n root).height (state_after_first n root).free) }
{
    let l = state_after_first(n, root);
    let mut items = [0u16; 51];
    let length = append_event(&mut items, 0, root, l.height, l.free);
    Next {
        shared: 0,
        length,
        items,
    }
}

// The word with an item raised, and the least way to end after that.
pub fn raise_at(word: &[u16], place: usize, event: u16, height: u16, free: u16) -> Next
    requires { (place ≤ length word.now) × (place + 1 + length (least_ending height free) ≤ 51) × (can_end height free ≡ true) × (height + free ≤ 50) }
    ensures { result ≡ shared_word place (take place word.now ++ (event ∷ least_ending height free)) }
{
    let mut items = [0u16; 51];
    fill(&mut items, &word[..place]);
    let length = append_event(&mut items, place, event, height, free);
    Next {
        shared: place,
        length,
        items,
    }
}
