// Relabelling: the characteristic labelling and the word of an accepted diagram, written into lists that are long enough, and the
// characteristic labelling of any lent diagram by value.
#![tactic(auto)]

ghost use Rattle.std.specs.Prelude.{◌≡◌, suc, ◌≤◌, length};
ghost use Rattle.diagrams.specs.Check.{Accepts};
ghost use Rattle.diagrams.specs.Held.{Held};
ghost use Rattle.words.specs.Outputs.{Short, Written};
ghost use Rattle.labelling.specs.Labelling.{word_of, characteristic};
ghost use Rattle.labelling_relabelling.specs.Promises.{CharacteristicPromise};

use diagrams::{Diagram, Made, check};
use labelling_code::writing::{write_list, write_word};

// Writes an accepted diagram's characteristic labelling and its word, and returns the word's length.
pub fn write_relabelled(
    s0: &[u16],
    s1: &[u16],
    root: u16,
    t0: &mut [u16],
    t1: &mut [u16],
    word: &mut [u16],
) -> usize
    requires accepts { Accepts s0.now s1.now root }
    requires not_short { ¬ Short (length s0.now) t0.old t1.old word.old }
    ensures few { result ≤ suc (length s0.now) }
    ensures length { result ≡ length (word_of s0.now s1.now root) }
    ensures written { Written (characteristic s0.now s1.now root) (word_of s0.now s1.now root) t0.old t1.old word.old t0.new t1.new word.new }
{
    let mut labels = [0u16; 1025];
    let mut order = [0u16; 1025];
    let mut next = [0u16; 1025];
    let mut prev = [0u16; 1025];
    let t = write_word(
        s0,
        s1,
        &mut labels,
        &mut order,
        &mut next,
        &mut prev,
        root,
        word,
    );
    write_list(s0, &labels, &order, t0);
    write_list(s1, &labels, &order, t1);
    t.len
}

// An accepted diagram's characteristic labelling by value, with root 1.
fn relabelled(s0: &[u16], s1: &[u16], root: u64) -> Diagram
    requires { Accepts s0.now s1.now root }
    ensures { Held result (characteristic s0.now s1.now root).black (characteristic s0.now s1.now root).white 1 }
{
    let mut t0 = [0u16; Diagram::MAX_SIZE];
    let mut t1 = [0u16; Diagram::MAX_SIZE];
    let mut word = [0u16; Diagram::MAX_SIZE + 1];
    write_relabelled(s0, s1, root as u16, &mut t0, &mut t1, &mut word);
    Diagram {
        s0: t0,
        s1: t1,
        size: s0.len() as u16,
        root: 1,
    }
}

// A diagram's characteristic labelling by value, with root 1, where check accepts the diagram; a refusal comes with the single edge.
pub fn characteristic(s0: &[u16], s1: &[u16], root: u64) -> Made
    ensures { CharacteristicPromise s0.now s1.now root result }
{
    let verdict = check(s0, s1, root);
    match verdict {
        Ok(()) => Made {
            verdict,
            diagram: relabelled(s0, s1, root),
        },
        Err(_) => Made {
            verdict,
            diagram: Diagram::single(),
        },
    }
}
