// The next diagram of a run: the word that follows, whether the output lists have room for the diagram, and the writing of it.
#![tactic(auto)]

ghost use Rattle.std.specs.Prelude.{◌≡◌, ◌⊎◌, true, false, List, ℕ, suc, ◌<◌, ◌≤◌};
ghost use Rattle.words.specs.Shape.{Word};
ghost use Rattle.words.specs.Outputs.{Short};
ghost use Rattle.listing_successor.specs.Successor.{successor, word_as_held};
ghost use Rattle.run_validity.specs.Valid.{ValidRun};
ghost use Rattle.run_next_diagram.specs.Given.{StepGives};

use listing_successor::{Held, successor_word};
use lists::fill;
use run_answers::{Run, Stepped};
use words_spelling::write_diagram;

// Whether an output list is short for a diagram of n edges and its word.
pub fn short(n: usize, s0: usize, s1: usize, word: usize) -> bool
    ensures { (result ≡ true → (s0 < n) ⊎ ((s1 < n) ⊎ (word < suc n))) × (result ≡ false → ¬ ((s0 < n) ⊎ ((s1 < n) ⊎ (word < suc n)))) }
{
    if s0 < n {
        return true;
    }
    if s1 < n {
        return true;
    }
    word <= n
}

// The word that follows that of a run; the empty list after the last.
pub fn next_word(run: Run) -> Held
    requires { ValidRun run }
    ensures { (S : ValidRun run) → result ≡ word_as_held (successor run.size S.word) }
{
    let length = run.length as usize;
    let items = run.items;
    successor_word(&items[..length], run.size as u16)
}

// Gives the diagram of a word, and the run that is at it.
pub fn give(size: u64, next: Held, s0: &mut [u16], s1: &mut [u16], word: &mut [u16]) -> Stepped
    requires { (size ≤ 50) × ((w : List ℕ) × (next ≡ word_as_held w) × Word size w) × (¬ Short size s0.old s1.old word.old) }
    ensures { (w : List ℕ) → next ≡ word_as_held w → Word size w → StepGives size w result s0.old s1.old word.old s0.new s1.new word.new }
{
    let length = next.length;
    let items = next.items;
    fill(word, &items[..length]);
    write_diagram(&items[..length], s0, s1);
    Stepped {
        answer: Ok(Some(length as u16)),
        run: Run {
            size,
            stage: 1,
            length: length as u64,
            items,
        },
    }
}
