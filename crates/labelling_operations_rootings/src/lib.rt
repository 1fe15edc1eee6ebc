// Symmetries and kept: a lent diagram's word among the words of its rootings. Both refuse what check refuses.
#![tactic(auto)]

ghost use Rattle.std.specs.Prelude.{◌≡◌, true};
ghost use Rattle.labelling_rootings.specs.Among.{UComesFirst};
ghost use Rattle.labelling_answers.specs.Promises.{SymmetriesPromise, KeptPromise};

use diagrams::{Diagram, check};
use diagrams_entries::within;
use labelling_comparison::{Question, ask_own};
use labelling_rootings::u_comes_first;
use refusals::Refusal;

// Counts a diagram's symmetries: the rootings with the same word.
pub fn symmetries(s0: &[u16], s1: &[u16], root: u64) -> Result<u16, Refusal>
    ensures { SymmetriesPromise s0.now s1.now root result }
{
    ask_own(s0, s1, root, Question::Number)
}

// Whether the root is an edge whose word begins with T while some rooting's begins with U; no where the lists are too long, or the root is
// no edge.
fn u_before_root(s0: &[u16], root: u64) -> bool
    ensures { result ≡ true → UComesFirst s0.now root }
{
    let n = s0.len();
    if !within(n as u64, Diagram::MAX_SIZE) {
        return false;
    }
    if !within(root, n) {
        return false;
    }
    u_comes_first(s0, root as u16)
}

// The keep mark where the root's word is not the least: no, unless check refuses the diagram.
fn unkept(s0: &[u16], s1: &[u16], root: u64) -> Result<bool, Refusal>
    requires { UComesFirst s0.now root }
    ensures { KeptPromise s0.now s1.now root result }
{
    check(s0, s1, root)?;
    Ok(false)
}

// Whether a diagram is kept: its word is the least among those of its rootings. Where the root's word begins with T and some rooting's with
// U, neither the word nor a ring is needed.
pub fn kept(s0: &[u16], s1: &[u16], root: u64) -> Result<bool, Refusal>
    ensures { KeptPromise s0.now s1.now root result }
{
    if u_before_root(s0, root) {
        return unkept(s0, s1, root);
    }
    let least = ask_own(s0, s1, root, Question::Least)?;
    Ok(least == 1)
}
