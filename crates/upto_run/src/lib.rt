// A run through all sizes up to a bound: the diagrams of the sizes 1 to n as a single list in dictionary order of words, each found from the one before, with
// the branch visits so far. Its beginning refuses 31. A step refuses 34, a run that is neither fresh, nor at a diagram with its visits, nor finished; after the
// last diagram it answers "end"; then it refuses 9, an output list that is short for the diagram that comes.
#![tactic(auto)]

ghost use Rattle.std.specs.Prelude.{◌≡◌, List, ℕ, ◌≤◌, length};
ghost use Rattle.words.specs.Shape.{Word};
ghost use Rattle.words.specs.Outputs.{Short};
ghost use Rattle.listing_successor_endings.specs.Endings.{shared_word};
ghost use Rattle.upto_words.specs.Within.{labels_of};
ghost use Rattle.upto_words.specs.Successor.{following, following_shared};
ghost use Rattle.upto_answers.specs.Promises.{UptoStepPromise};
ghost use Rattle.upto_validity.specs.Valid.{ValidUpto};
ghost use Rattle.upto_run.specs.Given as given;

use listing_successor::Held;
use refusals::Refusal;
use run_next_diagram::short;
pub use upto_answers::{UptoBegun, UptoGiven, UptoRun, UptoStepped};
pub use upto_beginning::begin;
use upto_beginning::empty;
use upto_size::labels_of;
use upto_successor::{Next, following};
use upto_validity::valid;

// The word that follows that of a run, with how far it agrees with it; the empty list after the last.
fn next_word(run: UptoRun) -> Next
    requires { ValidUpto run }
    ensures { (S : ValidUpto run) → result ≡ shared_word (following_shared run.bound S.word) (following run.bound S.word) }
{
    let length = run.length as usize;
    let items = run.items;
    following(&items[..length], run.bound as u16)
}

// The size of the diagram of a word: as many edges as it gives labels.
fn size_of(next: &Next) -> u16
    requires { (k : ℕ) × (w : List ℕ) × (next.now ≡ shared_word k w) × (length w ≤ 51) }
    ensures { (k : ℕ) (w : List ℕ) → next.now ≡ shared_word k w → result ≡ labels_of w }
{
    labels_of(&next.items[..next.length])
}

// Gives the diagram of a word, and the run that is at it.
fn give(
    bound: u64,
    size: u16,
    visits: u64,
    next: Next,
    s0: &mut [u16],
    s1: &mut [u16],
    word: &mut [u16],
) -> UptoStepped
    requires { (size ≤ 50) × ((k : ℕ) × (w : List ℕ) × (next ≡ shared_word k w) × Word size w) × (¬ Short size s0.old s1.old word.old) }
    ensures { (k : ℕ) (w : List ℕ) → next ≡ shared_word k w → Word size w
        → given.UptoGiven bound size visits w result s0.old s1.old word.old s0.new s1.new word.new }
{
    let length = next.length;
    let items = next.items;
    run_next_diagram::give(size as u64, Held { length, items }, s0, s1, word);
    UptoStepped {
        answer: Ok(Some(UptoGiven {
            size,
            length: length as u16,
            visits,
        })),
        run: UptoRun {
            bound,
            stage: 1,
            length: length as u64,
            visits,
            items,
        },
    }
}

// The next diagram of a run, or "end" after the last. Each diagram adds as many visits as its word has proper beginnings beyond those that it shares
// with the word before.
pub fn step(run: UptoRun, s0: &mut [u16], s1: &mut [u16], word: &mut [u16]) -> UptoStepped
    ensures { UptoStepPromise run result.run s0.old s1.old word.old s0.new s1.new word.new result.answer }
{
    if !valid(run) {
        return UptoStepped {
            answer: Err(Refusal::RunNotValid),
            run,
        };
    }
    if run.stage == 2 {
        return UptoStepped {
            answer: Ok(None),
            run,
        };
    }
    let next = next_word(run);
    if next.length == 0 {
        return UptoStepped {
            answer: Ok(None),
            run: empty(run.bound, 2, run.visits),
        };
    }
    let size = size_of(&next);
    if short(size as usize, s0.len(), s1.len(), word.len()) {
        return UptoStepped {
            answer: Err(Refusal::ListShort),
            run,
        };
    }
    let new = next.length - next.shared - 1;
    give(
        run.bound,
        size,
        run.visits + (new as u64),
        next,
        s0,
        s1,
        word,
    )
}
