// An event of a word taken back, from its item and the label it popped: the scratch lists hold the diagram as it stood before the item again.
#![tactic(auto)]

ghost use Rattle.std.specs.Prelude.{◌≡◌, List, ℕ, ◌+◌, ◌≤◌, ◌<◌, length, get_or, take};
ghost use Rattle.lists.specs.Lists.{at, put};
ghost use Rattle.lists.specs.Ranges.{OneTo};
ghost use Rattle.words_spelling_stores.specs.Stores.{Shifted};
ghost use Rattle.words_respelling_undo.specs.SpelledSoFar.{JoinUndone, SpelledSoFar};

use lists::to_index;
use words_spelling_events::LabelCounts;

// Puts a label into the stack at a place; those from there on move up by one.
fn insert_at(stack: &mut [u16; 64], place: usize, height: usize, p: u16)
    requires { (place ≤ height) × (height < 64) × (length stack.old ≡ 64) }
    ensures { Shifted stack.new stack.old place height × (get_or stack.new place 0 ≡ p) }
{
    for i in (place..height).rev() {
        stack[i + 1] = stack[i];
    }
    stack[place] = p;
}

// Parts k and its partner, which is returned: each is its own again.
fn unpair(s1: &mut [u16; 64], k: u16) -> u16
    requires { (length s1.old ≡ 64) × OneTo 64 k × OneTo 64 (at s1.old k) }
    ensures { (result ≡ at s1.old k) × (s1.new ≡ put (put s1.old result result) k k) }
{
    let i = to_index(k) - 1;
    let p = s1[i];
    let j = to_index(p) - 1;
    s1[j] = p;
    s1[i] = k;
    p
}

// Jd taken back: k is parted from the label it was joined to, which goes back to its place in the stack, and k on top.
fn undo_join(stack: &mut [u16; 64], s1: &mut [u16; 64], k: u16, d: usize, height: usize)
    requires { (d ≤ height) × (height < 63) × (length stack.old ≡ 64) × (length s1.old ≡ 64) × OneTo 64 k × OneTo 64 (at s1.old k) }
    ensures { JoinUndone stack.old stack.new s1.old s1.new k d height }
{
    let p = unpair(s1, k);
    insert_at(stack, height - d, height, p);
    stack[height + 1] = k;
}

// The event of the item at a place, from the label it popped, taken back. What it wrote past the labels that are left needs no undoing.
pub fn undo_event(
    word: &[u16],
    place: usize,
    stack: &mut [u16; 64],
    popped: &[u16; 64],
    s1: &mut [u16; 64],
    marks: LabelCounts,
) -> LabelCounts
    requires { (1 ≤ place) × (place < length word.now) × ((s0 : List ℕ) × SpelledSoFar (take (place + 1) word.now) stack.old popped.now s0 s1.old marks.used marks.height) }
    ensures { (s0 : List ℕ) → SpelledSoFar (take (place + 1) word.now) stack.old popped.now s0 s1.old marks.used marks.height
        → SpelledSoFar (take place word.now) stack.new popped.now s0 s1.new result.used result.height }
{
    let k = popped[place];
    let i = to_index(k) - 1;
    let used = marks.used;
    let h = marks.height;
    let item = word[place];
    match item {
        0 => {
            stack[h] = k;
            LabelCounts {
                used,
                height: h + 1,
            }
        }
        1 => {
            s1[i] = k;
            stack[h - 2] = k;
            LabelCounts {
                used: used - 3,
                height: h - 1,
            }
        }
        2 => {
            s1[i] = k;
            stack[h] = k;
            LabelCounts {
                used: used - 1,
                height: h + 1,
            }
        }
        _ => {
            undo_join(stack, s1, k, to_index(item - 3), h);
            LabelCounts {
                used,
                height: h + 2,
            }
        }
    }
}
