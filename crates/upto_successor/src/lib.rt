// The word that follows a word in the single list of all sizes up to a bound. It goes by the stack's height and the labels left, so that no
// diagram is made and no table is needed.
#![tactic(auto)]

ghost use Rattle.std.specs.Prelude.{◌≡◌, ◌⊎◌, [], ◌∷◌, ◌++◌, ◌+◌, ◌≤◌, length, take, replicate};
ghost use Rattle.lists.specs.Ranges.{OneTo};
ghost use Rattle.listing_successor_endings.specs.Endings.{shared_word};
ghost use Rattle.upto_words.specs.Within.{FitsWithin, WordWithin};
ghost use Rattle.upto_words.specs.Successor.{above, following, following_shared};
ghost use Rattle.upto_successor.specs.Raising.{RaisesWithin};

pub use listing_successor_endings::Next;
use listing_successor_states::{state_after_first, state_after_item};
use lists::fill;

// An item that can be raised: at `place` the event `event` takes its place, and `pending` labels are pending after it. Event 0: no item can.
#[derive(Drop)]
struct Raise {
    place: usize,
    event: u16,
    pending: u16,
}

// The least event above an item that can be read where `height` labels are pending besides the one that is popped; 0 where there is none.
fn above(height: u16, free: u16, item: u16) -> u16
    requires { height ≤ 50 }
    ensures { result ≡ above height free item }
{
    if item == 0 {
        if 3 <= free {
            return 1;
        }
        if 1 <= free {
            return 2;
        }
    }
    if item == 1 {
        return 2;
    }
    if item < 3 {
        if 0 < height {
            return 3;
        }
        return 0;
    }
    if item - 2 < height {
        return item + 1;
    }
    0
}

// The last item that can be raised.
fn last_raise(items: &[u16], height: u16, free: u16) -> Raise
    requires { FitsWithin height free items.now × (height + free ≤ 50) }
    ensures { RaisesWithin height free items.now result.place result.event result.pending }
{
    let mut h = height;
    let mut f = free;
    let mut place: usize = 0;
    let mut event: u16 = 0;
    let mut pending: u16 = 0;
    for (i, &x) in items.iter().enumerate() {
        let e = above(h - 1, f, x);
        if 0 < e {
            place = i;
            event = e;
            let raised = state_after_item(h, f, e);
            pending = raised.height;
        }
        let l = state_after_item(h, f, x);
        h = l.height;
        f = l.free;
    }
    Raise {
        place,
        event,
        pending,
    }
}

// The word with an item raised, and after it W for each pending label: W is 0, which all places held before.
fn raise_at(word: &[u16], place: usize, event: u16, pending: u16) -> Next
    requires { (place ≤ length word.now) × (place + 1 + pending ≤ 51) }
    ensures { result ≡ shared_word place (take place word.now ++ (event ∷ replicate pending 0)) }
{
    let mut items = [0u16; 51];
    fill(&mut items, &word[..place]);
    items[place] = event;
    Next {
        shared: place,
        length: place + 1 + (pending as usize),
        items,
    }
}

// The word that follows a word of the single list of bound n, and how far the two agree: the first after the empty list, and the empty list after the last.
pub fn following(word: &[u16], n: u16) -> Next
    requires { OneTo 50 n × ((word.now ≡ []) ⊎ WordWithin n word.now) }
    ensures { result ≡ shared_word (following_shared n word.now) (following n word.now) }
{
    if word.len() == 0 {
        return raise_at(word, 0, 0, 1);
    }
    let l = state_after_first(n, word[0]);
    let r = last_raise(&word[1..], l.height, l.free);
    if 0 < r.event {
        return raise_at(word, r.place + 1, r.event, r.pending);
    }
    if word[0] == 0 {
        if 3 <= n {
            return raise_at(word, 0, 1, 3);
        }
    }
    Next {
        shared: 0,
        length: 0,
        items: [0u16; 51],
    }
}
