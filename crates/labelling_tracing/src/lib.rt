// A rooting's word traced along another word, own, as far as the first item that differs: what the least rooting, the symmetries and the
// comparison need of it. An edge's stamp tells whether it is labelled, and a rooting's stamp is its number, so that the rootings of a
// diagram can be traced one after another in rising order with nothing cleared between them.
#![tactic(auto)]

ghost use Rattle.std.specs.Prelude.{◌≡◌, ◌↔◌, true, List, [], ℕ, ◌+◌, ◌<◌, length, get_or};
ghost use Rattle.lists.specs.Ranges.{OneTo};
ghost use Rattle.diagrams.specs.Check.{Mapped};
ghost use Rattle.pending_ring.specs.Ring.{Ring};
ghost use Rattle.labelling.specs.Labelling.{word_of};
ghost use Rattle.labelling_tracing_events.specs.Stamps.{Below};
ghost use Rattle.labelling_tracing.specs.Traced.{TracedAlong, WordWritten};

use labelling_tracing_events::{begin, event};

// Where a rooting's word leaves own: at a place where it has another item than own, or has ended.
#[derive(Clone, Copy)]
pub struct Traced {
    pub place: usize,
    pub item: u16,
    pub ended: bool,
}

// How many items a word has, and how many labels were given: as Extent of labelling_code, on which this crate does not stand.
#[derive(Clone, Copy)]
pub struct Written {
    pub len: usize,
    pub given: u16,
}

// Clears the stamps of the edges 1..n.
pub fn clear_stamps(stamps: &mut [u16], n: usize)
    requires { n < length stamps.old }
    ensures { Below n stamps.new 1 }
{
    stamps[1..n + 1].fill(0);
}

// Labels from the rooting `root` until its word leaves own. The pending edges stay behind.
fn follow_own(
    s0: &[u16],
    s1: &[u16],
    stamps: &mut [u16],
    next: &mut [u16; 1025],
    prev: &mut [u16; 1025],
    root: u16,
    own: &[u16],
) -> Traced
    requires mapped { Mapped s0.now s1.now × OneTo (length s0.now) root }
    requires below { Below (length s0.now) stamps.old root }
    requires ring { Ring next.old prev.old [] }
    ensures traced { TracedAlong s0.now s1.now root own.now result }
    ensures stamped { Below (length s0.now) stamps.new (root + 1) }
    ensures pending { (st : List ℕ) × Ring next.new prev.new st }
{
    let first = begin(s0, stamps, root, next, prev, root);
    let mut given = first.given;
    let mut item = first.item;
    for (place, &expected) in own.iter().enumerate() {
        if item != expected {
            return Traced {
                place,
                item,
                ended: false,
            };
        }
        if next[0] == 0 {
            return Traced {
                place: place + 1,
                item,
                ended: true,
            };
        }
        let done = event(s0, s1, stamps, root, next, prev, given);
        given = done.given;
        item = done.item;
    }
    Traced {
        place: own.len(),
        item,
        ended: false,
    }
}

// Traces the word of the rooting `root` along own.
pub fn trace(
    s0: &[u16],
    s1: &[u16],
    stamps: &mut [u16],
    next: &mut [u16; 1025],
    prev: &mut [u16; 1025],
    root: u16,
    own: &[u16],
) -> Traced
    requires mapped { Mapped s0.now s1.now × OneTo (length s0.now) root }
    requires below { Below (length s0.now) stamps.old root }
    requires ring { Ring next.old prev.old [] }
    ensures traced { TracedAlong s0.now s1.now root own.now result }
    ensures stamped { Below (length s0.now) stamps.new (root + 1) }
    ensures empty { Ring next.new prev.new [] }
{
    let t = follow_own(s0, s1, stamps, next, prev, root, own);
    pending_ring::clear(next, prev);
    t
}

// Whether the word of the rooting `root` is own.
pub fn has_word(
    s0: &[u16],
    s1: &[u16],
    stamps: &mut [u16],
    next: &mut [u16; 1025],
    prev: &mut [u16; 1025],
    root: u16,
    own: &[u16],
) -> bool
    requires mapped { Mapped s0.now s1.now × OneTo (length s0.now) root }
    requires below { Below (length s0.now) stamps.old root }
    requires ring { Ring next.old prev.old [] }
    ensures answer { (result ≡ true) ↔ (word_of s0.now s1.now root ≡ own.now) }
    ensures stamped { Below (length s0.now) stamps.new (root + 1) }
    ensures empty { Ring next.new prev.new [] }
{
    let t = trace(s0, s1, stamps, next, prev, root, own);
    if t.ended {
        return t.place == own.len();
    }
    false
}

// Writes the word of the rooting `root`.
pub fn own_word(
    s0: &[u16],
    s1: &[u16],
    stamps: &mut [u16],
    next: &mut [u16; 1025],
    prev: &mut [u16; 1025],
    root: u16,
    word: &mut [u16],
) -> Written
    requires mapped { Mapped s0.now s1.now × OneTo (length s0.now) root }
    requires below { Below (length s0.now) stamps.old root }
    requires ring { Ring next.old prev.old [] }
    requires s0_in_bounds { length s0.now < length word.old }
    ensures { WordWritten s0.now s1.now root next.new prev.new word.old word.new result }
{
    let first = begin(s0, stamps, root, next, prev, root);
    word[0] = first.item;
    let mut given = first.given;
    let mut len: usize = 1;
    while next[0] != 0 {
        let done = event(s0, s1, stamps, root, next, prev, given);
        word[len] = done.item;
        given = done.given;
        len += 1;
    }
    Written { len, given }
}
