// What compare, symmetries and kept ask of diagrams: how the words of one diagram's rootings stand to the word of another diagram, or of
// the same one. The arrays of a labelling are made here, once for a question. A diagram that is asked about its own word needs no search
// of its own for check's eighth condition, since it is connected exactly if every edge gets a label.
#![tactic(auto)]

ghost use Rattle.std.specs.Prelude.{◌≡◌, ◌↔◌, true, [], ◌<◌, length};
ghost use Rattle.diagrams.specs.Check.{Accepts, RootedMaps};
ghost use Rattle.pending_ring.specs.Ring.{Ring};
ghost use Rattle.labelling.specs.Labelling.{word_of};
ghost use Rattle.labelling_tracing_events.specs.Stamps.{Below};
ghost use Rattle.labelling_comparison.specs.Questions.{Askable, Answered, AskedPromise};

use diagrams::{Diagram, check_maps};
use labelling_rootings::{none_before, some_rooting};
use labelling_symmetries::rootings_with;
use labelling_tracing::{clear_stamps, has_word, own_word};
use lists::to_index;
use pending_ring::clear;
use refusals::Refusal;

// Diagrams up to this size are asked about in small arrays: clearing large ones would take longer than the labelling itself.
const SMALL: usize = 64;

// What is asked of a rooted diagram, given a word: whether its own word is the given one; whether some rooting's word is; how many
// rootings' words are; whether no rooting's word comes before it.
#[derive(Clone, Copy)]
pub enum Question {
    Root,
    Any,
    Number,
    Least,
}

// An answer as a number: 1 for yes, 0 for no.
fn number(yes: bool) -> u16
    ensures { (result ≡ 1) ↔ (yes ≡ true) }
{
    u16::from(yes)
}

// Whether the diagram's own word is the given one.
fn root_has_word(
    s0: &[u16],
    s1: &[u16],
    stamps: &mut [u16],
    next: &mut [u16; 1025],
    prev: &mut [u16; 1025],
    root: u16,
    word: &[u16],
) -> bool
    requires accepts { Accepts s0.now s1.now root }
    requires s0_in_bounds { length s0.now < length stamps.old }
    requires ring { Ring next.old prev.old [] }
    ensures { (result ≡ true) ↔ (word_of s0.now s1.now root ≡ word.now) }
{
    clear_stamps(stamps, s0.len());
    has_word(s0, s1, stamps, next, prev, root, word)
}

// Answers a question, given the word.
fn answer(
    s0: &[u16],
    s1: &[u16],
    stamps: &mut [u16],
    next: &mut [u16; 1025],
    prev: &mut [u16; 1025],
    root: u16,
    word: &[u16],
    question: Question,
) -> u16
    requires accepts { Accepts s0.now s1.now root }
    requires s0_in_bounds { length s0.now < length stamps.old }
    requires ring { Ring next.old prev.old [] }
    requires askable { Askable question s0.now s1.now root word.now }
    ensures { Answered question s0.now s1.now root word.now result }
{
    match question {
        Question::Root => number(root_has_word(s0, s1, stamps, next, prev, root, word)),
        Question::Any => number(some_rooting(s0, s1, stamps, next, prev, word)),
        Question::Number => rootings_with(s0, s1, stamps, next, prev, word),
        Question::Least => number(none_before(s0, s1, stamps, next, prev, root, word)),
    }
}

// Answers a question about the accepted diagram s0, s1, r, given the word of the accepted diagram t0, t1, q, in lent arrays with a place
// for each of 0..n.
fn ask_in(
    s0: &[u16],
    s1: &[u16],
    r: u64,
    t0: &[u16],
    t1: &[u16],
    q: u64,
    question: Question,
    stamps: &mut [u16],
    word: &mut [u16],
) -> u16
    requires accepts { Accepts s0.now s1.now r × Accepts t0.now t1.now q }
    requires s0_len { length s0.now ≡ length t0.now }
    requires askable { Askable question s0.now s1.now r (word_of t0.now t1.now q) }
    requires below { Below (length t0.now) stamps.old 1 }
    requires t0_in_bounds { length t0.now < length word.old }
    ensures { Answered question s0.now s1.now r (word_of t0.now t1.now q) result }
{
    let mut next = [0u16; 1025];
    let mut prev = [0u16; 1025];
    let written = own_word(t0, t1, stamps, &mut next, &mut prev, q as u16, word);
    let m = written.len;
    answer(
        s0,
        s1,
        stamps,
        &mut next,
        &mut prev,
        r as u16,
        &word[..m],
        question,
    )
}

// Answers a question about the accepted diagram s0, s1, r, given the word of the accepted diagram t0, t1, q of the same size.
pub fn ask(
    s0: &[u16],
    s1: &[u16],
    r: u64,
    t0: &[u16],
    t1: &[u16],
    q: u64,
    question: Question,
) -> u16
    requires accepts { Accepts s0.now s1.now r × Accepts t0.now t1.now q }
    requires s0_len { length s0.now ≡ length t0.now }
    requires askable { Askable question s0.now s1.now r (word_of t0.now t1.now q) }
    ensures { Answered question s0.now s1.now r (word_of t0.now t1.now q) result }
{
    if t0.len() <= SMALL {
        let mut stamps = [0u16; SMALL + 1];
        let mut word = [0u16; SMALL + 1];
        return ask_in(s0, s1, r, t0, t1, q, question, &mut stamps, &mut word);
    }
    let mut stamps = [0u16; Diagram::MAX_SIZE + 1];
    let mut word = [0u16; Diagram::MAX_SIZE + 1];
    ask_in(s0, s1, r, t0, t1, q, question, &mut stamps, &mut word)
}

// Answers a question about lists that are maps, given their own word, in lent arrays with a place for each of 0..n: NotConnected where
// some edge gets no label.
fn own_in(
    s0: &[u16],
    s1: &[u16],
    root: u64,
    question: Question,
    stamps: &mut [u16],
    word: &mut [u16],
) -> Result<u16, Refusal>
    requires rooted_maps { RootedMaps s0.now s1.now root }
    requires below { Below (length s0.now) stamps.old 1 }
    requires s0_in_bounds { length s0.now < length word.old }
    ensures { AskedPromise question s0.now s1.now root result }
{
    let mut next = [0u16; 1025];
    let mut prev = [0u16; 1025];
    clear(&mut next, &mut prev);
    let r = root as u16;
    let written = own_word(s0, s1, stamps, &mut next, &mut prev, r, word);
    let n = s0.len();
    let given = to_index(written.given);
    if given < n {
        return Err(Refusal::NotConnected);
    }
    let m = written.len;
    Ok(answer(
        s0,
        s1,
        stamps,
        &mut next,
        &mut prev,
        r,
        &word[..m],
        question,
    ))
}

// The same, in arrays chosen by the size.
fn own_maps(s0: &[u16], s1: &[u16], root: u64, question: Question) -> Result<u16, Refusal>
    requires { RootedMaps s0.now s1.now root }
    ensures { AskedPromise question s0.now s1.now root result }
{
    if s0.len() <= SMALL {
        let mut stamps = [0u16; SMALL + 1];
        let mut word = [0u16; SMALL + 1];
        return own_in(s0, s1, root, question, &mut stamps, &mut word);
    }
    let mut stamps = [0u16; Diagram::MAX_SIZE + 1];
    let mut word = [0u16; Diagram::MAX_SIZE + 1];
    own_in(s0, s1, root, question, &mut stamps, &mut word)
}

// Answers a question about a diagram, given its own word. Refuses as check does.
pub fn ask_own(s0: &[u16], s1: &[u16], root: u64, question: Question) -> Result<u16, Refusal>
    ensures { AskedPromise question s0.now s1.now root result }
{
    check_maps(s0, s1, root)?;
    own_maps(s0, s1, root, question)
}
