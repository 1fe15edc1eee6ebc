// The first item of a word of a listed size (1 to 50) and the events after it, one at a time: each takes the lent lists and the stack of pending
// labels from before the item to after it.
#![tactic(auto)]

ghost use Rattle.std.specs.Prelude.{◌≡◌, List, ◌∷◌, ℕ, length};
ghost use Rattle.std.proofs.Math.Option.{some};
ghost use Rattle.words.specs.Word.{Pair, spell};
ghost use Rattle.words_spelling_events.specs.States.{State, state_after, first_state};
ghost use Rattle.words_spelling_events.specs.Spelling.{SpellingRoom, SpellingState};

use lists::to_index;
use words_spelling_stores::{add_alone, add_triple, join_pending, write_three};

// How many labels are given, and how many of them are pending.
#[derive(Clone, Copy)]
pub struct LabelCounts {
    pub used: u16,
    pub height: usize,
}

// U or T: the root alone on its black vertex, or the first of three.
pub fn begin(stack: &mut [u16; 64], s0: &mut [u16], s1: &mut [u16], root: u16) -> LabelCounts
    requires { (length stack.old ≡ 64) × ((D : Pair) × (w : List ℕ) × (spell (root ∷ w) ≡ some D) × SpellingRoom D s0.old s1.old) }
    ensures { (D : Pair) (w : List ℕ) → spell (root ∷ w) ≡ some D → SpellingRoom D s0.old s1.old
        → SpellingState D w (first_state root) s0.old s1.old stack.new s0.new s1.new result.used result.height }
{
    match root {
        0 => {
            s0[0] = 1;
            s1[0] = 1;
            stack[0] = 1;
            LabelCounts { used: 1, height: 1 }
        }
        _ => {
            write_three(s0, 0, 2, 3, 1);
            write_three(s1, 0, 1, 2, 3);
            stack[0] = 1;
            stack[1] = 2;
            stack[2] = 3;
            LabelCounts { used: 3, height: 3 }
        }
    }
}

// One event: the top label k is popped, and the item says what becomes of it.
pub fn event(
    stack: &mut [u16; 64],
    s0: &mut [u16],
    s1: &mut [u16],
    item: u16,
    used: u16,
    height: usize,
) -> LabelCounts
    requires { (D : Pair) × (S : State) × (w a0 a1 : List ℕ) × SpellingState D (item ∷ w) S a0 a1 stack.old s0.old s1.old used height }
    ensures { (D : Pair) (S : State) (w a0 a1 : List ℕ) → SpellingState D (item ∷ w) S a0 a1 stack.old s0.old s1.old used height
        → SpellingState D w (state_after item S) a0 a1 stack.new s0.new s1.new result.used result.height }
{
    let h = height - 1;
    let k = stack[h];
    match item {
        0 => LabelCounts { used, height: h },
        1 => {
            add_triple(stack, s0, s1, k, used, h);
            LabelCounts {
                used: used + 3,
                height: h + 2,
            }
        }
        2 => {
            add_alone(s0, s1, k, used);
            LabelCounts {
                used: used + 1,
                height: h,
            }
        }
        _ => {
            join_pending(stack, s1, k, to_index(item - 3), h);
            LabelCounts {
                used,
                height: h - 1,
            }
        }
    }
}
