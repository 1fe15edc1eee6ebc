// The diagram of a word of a listed size (1 to 50), written straight into the lent lists, event by event.
#![tactic(auto)]

ghost use Rattle.std.specs.Prelude.{◌≡◌, List, ℕ, ◌≤◌, length};
ghost use Rattle.std.proofs.Math.Option.{some};
ghost use Rattle.words.specs.Word.{Pair, spell, Spells};
ghost use Rattle.words.specs.Outputs.{overwrite};
ghost use Rattle.words_spelling_events.specs.States.{State};
ghost use Rattle.words_spelling_events.specs.Spelling.{SpellingState};

use words_spelling_events::{LabelCounts, begin, event};

// The events after the first item.
fn events(
    word: &[u16],
    stack: &mut [u16; 64],
    s0: &mut [u16],
    s1: &mut [u16],
    mut counts: LabelCounts,
)
    requires { (D : Pair) × (S : State) × (a0 a1 : List ℕ) × SpellingState D word.now S a0 a1 stack.old s0.old s1.old counts.used counts.height }
    ensures { (D : Pair) (S : State) (a0 a1 : List ℕ) → SpellingState D word.now S a0 a1 stack.old s0.old s1.old counts.used counts.height
        → (s0.new ≡ overwrite D.black a0) × (s1.new ≡ overwrite D.white a1) }
{
    for &item in word {
        counts = event(stack, s0, s1, item, counts.used, counts.height);
    }
}

// Fills the first places of the lists with the diagram that the word spells; the rest is untouched.
pub fn write_diagram(word: &[u16], s0: &mut [u16], s1: &mut [u16])
    requires { (n : ℕ) × Spells n word.now × (n ≤ 50) × (n ≤ length s0.old) × (n ≤ length s1.old) }
    ensures { (D : Pair) → spell word.now ≡ some D → (s0.new ≡ overwrite D.black s0.old) × (s1.new ≡ overwrite D.white s1.old) }
{
    let mut stack = [0u16; 64];
    let counts = begin(&mut stack, s0, s1, word[0]);
    events(&word[1..], &mut stack, s0, s1, counts)
}
