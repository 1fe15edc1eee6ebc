// Relabel: writes a lent diagram's characteristic labelling and its word. It refuses what check refuses, then a short output list.
#![tactic(auto)]

ghost use Rattle.std.specs.Prelude.{◌≡◌, ◌⊎◌, ◌↔◌, true, suc, ◌≤◌, ◌<◌, length};
ghost use Rattle.diagrams.specs.Check.{Accepts};
ghost use Rattle.labelling_answers.specs.Promises.{RelabelPromise};

use diagrams::check;
use labelling_check::check_and_label;
use labelling_code::writing::write_list;
use labelling_relabelling::write_relabelled;
use lists::fill;
use refusals::Refusal;

// Whether output lists of these lengths are short for n edges.
fn short(n: usize, black: usize, white: usize, word: usize) -> bool
    ensures { (result ≡ true) ↔ ((black < n) ⊎ ((white < n) ⊎ (word < suc n))) }
{
    black < n || white < n || word <= n
}

// Relabels a diagram that is accepted.
fn relabel_accepted(
    s0: &[u16],
    s1: &[u16],
    root: u64,
    t0: &mut [u16],
    t1: &mut [u16],
    word: &mut [u16],
) -> Result<u16, Refusal>
    requires { Accepts s0.now s1.now root }
    ensures { RelabelPromise s0.now s1.now root t0.old t1.old word.old t0.new t1.new word.new result }
{
    if short(s0.len(), t0.len(), t1.len(), word.len()) {
        return Err(Refusal::ListShort);
    }
    let m = write_relabelled(s0, s1, root as u16, t0, t1, word);
    Ok(m as u16)
}

// Diagrams up to this size are labelled before it is known that they are connected, in small arrays: a refusal leaves every output
// list as it was, so the word is copied out of one of them.
const SMALL: usize = 64;

// Relabels a small diagram.
fn relabel_small(
    s0: &[u16],
    s1: &[u16],
    root: u64,
    t0: &mut [u16],
    t1: &mut [u16],
    word: &mut [u16],
) -> Result<u16, Refusal>
    requires { length s0.now ≤ 64 }
    ensures { RelabelPromise s0.now s1.now root t0.old t1.old word.old t0.new t1.new word.new result }
{
    let mut labels = [0u16; SMALL + 1];
    let mut order = [0u16; SMALL + 1];
    let mut items = [0u16; SMALL + 1];
    let len = check_and_label(s0, s1, root, &mut labels, &mut order, &mut items)?;
    if short(s0.len(), t0.len(), t1.len(), word.len()) {
        return Err(Refusal::ListShort);
    }
    fill(word, &items[..len]);
    write_list(s0, &labels, &order, t0);
    write_list(s1, &labels, &order, t1);
    Ok(len as u16)
}

// Relabels a diagram of any size: once check has accepted it, its word goes straight into the list.
fn relabel_large(
    s0: &[u16],
    s1: &[u16],
    root: u64,
    t0: &mut [u16],
    t1: &mut [u16],
    word: &mut [u16],
) -> Result<u16, Refusal>
    ensures { RelabelPromise s0.now s1.now root t0.old t1.old word.old t0.new t1.new word.new result }
{
    check(s0, s1, root)?;
    relabel_accepted(s0, s1, root, t0, t1, word)
}

// Writes a diagram's characteristic labelling and its word, and returns the word's length.
pub fn relabel(
    s0: &[u16],
    s1: &[u16],
    root: u64,
    t0: &mut [u16],
    t1: &mut [u16],
    word: &mut [u16],
) -> Result<u16, Refusal>
    ensures { RelabelPromise s0.now s1.now root t0.old t1.old word.old t0.new t1.new word.new result }
{
    if s0.len() <= SMALL {
        return relabel_small(s0, s1, root, t0, t1, word);
    }
    relabel_large(s0, s1, root, t0, t1, word)
}
