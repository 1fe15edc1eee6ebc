// A whole labelling written out: the word, and the lists seen through the labels.
ghost use Rattle.std.specs.Prelude.{◌≡◌, List, ◌++◌, [], ℕ, ◌<◌, ◌≤◌, length, drop};
ghost use Rattle.lists.specs.Lists.{at, tabulate};
ghost use Rattle.lists.specs.Ranges.{OneTo};
ghost use Rattle.diagrams.specs.Check.{RootedMaps, Entries};
ghost use Rattle.pending_ring.specs.Ring.{Ring};
ghost use Rattle.labelling.specs.Labelling.{edge_of, relabel};
ghost use Rattle.labelling_code.specs.Scratch.{LabelsHeld, WordWritten};

use labelling_arrays::follow;
use labelling_events::{begin, event};
use lists::to_index;

// How many items were written, and how many labels given meanwhile.
#[derive(Clone, Copy)]
pub struct Extent {
    pub len: usize,
    pub given: u16,
}

// Labels what is reached from the root and writes the word.
pub fn write_word(
    s0: &[u16],
    s1: &[u16],
    labels: &mut [u16],
    order: &mut [u16],
    next: &mut [u16; 1025],
    prev: &mut [u16; 1025],
    root: u16,
    word: &mut [u16],
) -> Extent
    requires rooted_maps { RootedMaps s0.now s1.now root }
    requires labels_held { LabelsHeld labels.old order.old 0 [] × Ring next.old prev.old [] }
    requires s0_in_bounds { (length s0.now < length labels.old) × (length s0.now < length order.old) × (length s0.now < length word.old) }
    ensures written { WordWritten s0.now s1.now root labels.new order.new word.old word.new result.len result.given }
    ensures empty { Ring next.new prev.new [] }
{
    let first = begin(s0, labels, order, next, prev, root);
    word[0] = first.item;
    let mut given = first.given;
    let mut height = first.height;
    let mut len: usize = 1;
    while next[0] != 0 {
        let done = event(s0, s1, labels, order, next, prev, given, height);
        word[len] = done.item;
        given = done.given;
        height = done.height;
        len += 1;
    }
    Extent { len, given }
}

// Writes the list s, seen through the labels, into the first places of t.
pub fn write_list(s: &[u16], labels: &[u16], order: &[u16], t: &mut [u16])
    requires s_in_bounds { (length s.now < length labels.now) × (length s.now < length order.now) × (length s.now ≤ length t.old) × Entries (length s.now) s.now }
    requires by_index { (o : List ℕ) × LabelsHeld labels.now order.now (length s.now) o × ((j : ℕ) → OneTo (length s.now) j → OneTo (length s.now) (edge_of o j)) }
    ensures { (o : List ℕ) → LabelsHeld labels.now order.now (length s.now) o
        → t.new ≡ tabulate (relabel o (at s.now)) (length s.now) ++ drop (length s.now) t.old }
{
    for j in 0..s.len() {
        let x = follow(s, order[j + 1]);
        t[j] = labels[to_index(x)];
    }
}
