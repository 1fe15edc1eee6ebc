// The diagram at a position of a listed size, with its word: unranking chooses the word's events one after another, and each is drawn as soon
// as it is chosen, so that the word is gone through once.
#![tactic(auto)]

ghost use Rattle.std.specs.Prelude.{◌≡◌, List, ℕ, length};
ghost use Rattle.lists.specs.Ranges.{OneTo};
ghost use Rattle.words.specs.Word.{Pair};
ghost use Rattle.words.specs.Outputs.{Short, Written};
ghost use Rattle.listing.specs.Listing.{count};
ghost use Rattle.listing.specs.Position.{word_at};
ghost use Rattle.listing.specs.Diagrams.{diagram_at};
ghost use Rattle.listing_unranking.specs.Drawing.{Rooted, Drawing};

use listing_places_ways::unranking::choose;
use words_spelling_events::{begin, event};

// The events after the first item, each chosen, drawn and written. Returns the word's length.
fn draw(
    word: &mut [u16],
    stack: &mut [u16; 64],
    s0: &mut [u16],
    s1: &mut [u16],
    used: u16,
    height: usize,
    free: usize,
    place: u64,
) -> usize
    requires { (D : Pair) × (W a a0 a1 : List ℕ) × Drawing D W a a0 a1 word.old stack.old s0.old s1.old 1 used height free place }
    ensures { (D : Pair) (W a a0 a1 : List ℕ) → Drawing D W a a0 a1 word.old stack.old s0.old s1.old 1 used height free place
        → (result ≡ length W) × Written D W a0 a1 a s0.new s1.new word.new }
{
    let mut i: usize = 1;
    let mut u = used;
    let mut h = height;
    let mut f = free;
    let mut p = place;
    // The height, and not the index, ends the loop.
    while 0 < h {
        let choice = choose(h, f, p);
        word[i] = choice.item;
        let counts = event(stack, s0, s1, choice.item, u, h);
        u = counts.used;
        h = counts.height;
        f = choice.free;
        p = choice.place;
        i += 1;
    }
    i
}

// The word at a position from its first item on, with its diagram. Returns the word's length.
fn write_from(
    root: u16,
    free: usize,
    place: u64,
    s0: &mut [u16],
    s1: &mut [u16],
    word: &mut [u16],
) -> usize
    requires { (n p : ℕ) × Rooted n p root free place s0.old s1.old word.old }
    ensures { (n p : ℕ) → Rooted n p root free place s0.old s1.old word.old
        → (result ≡ length (word_at n p)) × Written (diagram_at n p) (word_at n p) s0.old s1.old word.old s0.new s1.new word.new }
{
    let mut stack = [0u16; 64];
    word[0] = root;
    let first = begin(&mut stack, s0, s1, root);
    draw(
        word,
        &mut stack,
        s0,
        s1,
        first.used,
        first.height,
        free,
        place,
    )
}

// Writes the diagram at a position that there is, with its word, into lists that are long enough. Returns the word's length.
pub fn write_at(n: u64, p: u64, s0: &mut [u16], s1: &mut [u16], word: &mut [u16]) -> usize
    requires { OneTo 50 n × OneTo (count n) p × (¬ Short n s0.old s1.old word.old) }
    ensures { (result ≡ length (word_at n p))
        × Written (diagram_at n p) (word_at n p) s0.old s1.old word.old s0.new s1.new word.new }
{
    let size = n as usize;
    let place = p - 1;
    let single = listing_table::ways(1, size - 1);
    if place < single {
        return write_from(0, size - 1, place, s0, s1, word);
    }
    write_from(1, size - 3, place - single, s0, s1, word)
}
