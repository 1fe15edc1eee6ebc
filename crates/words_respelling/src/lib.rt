// A diagram spelled event by event into scratch lists, which keep it as it stands after each item: the label that an item's event pops is noted at the
// item's place, so that the event can be taken back.
#![tactic(auto)]

ghost use Rattle.std.specs.Prelude.{List, ℕ, ◌+◌, ◌≤◌, length, take};
ghost use Rattle.words_respelling.specs.SpelledSoFar.{ListedWord, ScratchLengths, SpelledSoFar, EventDue};

use words_spelling_events::{LabelCounts, begin, event};

// The event of the item at a place; the label it pops is noted there.
pub fn add_event(
    item: u16,
    place: usize,
    stack: &mut [u16; 64],
    popped: &mut [u16; 64],
    s0: &mut [u16; 64],
    s1: &mut [u16; 64],
    marks: LabelCounts,
) -> LabelCounts
    requires { (w : List ℕ) × EventDue w place item stack.old popped.old s0.old s1.old marks.used marks.height }
    ensures { (w : List ℕ) → EventDue w place item stack.old popped.old s0.old s1.old marks.used marks.height
        → SpelledSoFar (take (place + 1) w) stack.new popped.new s0.new s1.new result.used result.height }
{
    let h = marks.height;
    let used = marks.used;
    popped[place] = stack[h - 1];
    event(stack, s0, s1, item, used, h)
}

// The events of the items from a place on.
fn add_events(
    word: &[u16],
    from: usize,
    stack: &mut [u16; 64],
    popped: &mut [u16; 64],
    s0: &mut [u16; 64],
    s1: &mut [u16; 64],
    mut marks: LabelCounts,
) -> LabelCounts
    requires { (1 ≤ from) × (from ≤ length word.now) × ListedWord word.now
        × SpelledSoFar (take from word.now) stack.old popped.old s0.old s1.old marks.used marks.height }
    ensures { SpelledSoFar word.now stack.new popped.new s0.new s1.new result.used result.height }
{
    for i in from..word.len() {
        marks = add_event(word[i], i, stack, popped, s0, s1, marks);
    }
    marks
}

// The spelling of a word from nothing.
pub fn spell_all(
    word: &[u16],
    stack: &mut [u16; 64],
    popped: &mut [u16; 64],
    s0: &mut [u16; 64],
    s1: &mut [u16; 64],
) -> LabelCounts
    requires scratch_lengths { ScratchLengths stack.old popped.old s0.old s1.old }
    requires listed_word { ListedWord word.now }
    ensures { SpelledSoFar word.now stack.new popped.new s0.new s1.new result.used result.height }
{
    let m = begin(stack, s0, s1, word[0]);
    add_events(word, 1, stack, popped, s0, s1, m)
}
