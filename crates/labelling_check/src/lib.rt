// Check by the labelling: a diagram that is to be labelled anyway needs no search of its own for the eighth condition, since it is
// connected exactly if every edge gets a label.
#![tactic(auto)]

ghost use Rattle.std.specs.Prelude.{[], ◌<◌, length};
ghost use Rattle.diagrams.specs.Check.{RootedMaps};
ghost use Rattle.labelling_code.specs.Scratch.{LabelsHeld};
ghost use Rattle.labelling_check.specs.Promise.{LabelPromise};

use diagrams::check_maps;
use labelling_code::writing::write_word;
use lists::to_index;
use pending_ring::clear;
use refusals::Refusal;

// Labels lists that are maps, from an edge, and returns the word's length: NotConnected where some edge gets no label.
fn label_maps(
    s0: &[u16],
    s1: &[u16],
    root: u64,
    labels: &mut [u16],
    order: &mut [u16],
    word: &mut [u16],
) -> Result<usize, Refusal>
    requires rooted_maps { RootedMaps s0.now s1.now root }
    requires labels_held { LabelsHeld labels.old order.old 0 [] }
    requires s0_in_bounds { (length s0.now < length labels.old) × (length s0.now < length order.old) × (length s0.now < length word.old) }
    ensures { LabelPromise s0.now s1.now root labels.new order.new word.old word.new result }
{
    let mut next = [0u16; 1025];
    let mut prev = [0u16; 1025];
    clear(&mut next, &mut prev);
    let t = write_word(
        s0,
        s1,
        labels,
        order,
        &mut next,
        &mut prev,
        root as u16,
        word,
    );
    if to_index(t.given) < s0.len() {
        return Err(Refusal::NotConnected);
    }
    Ok(t.len)
}

// Labels a diagram and writes its word, both into lent arrays with a place for each of 0..n; no edge has a label yet. Returns the word's
// length. Refuses as check does, and NotConnected with the word and the labels of what the root reaches left behind.
pub fn check_and_label(
    s0: &[u16],
    s1: &[u16],
    root: u64,
    labels: &mut [u16],
    order: &mut [u16],
    word: &mut [u16],
) -> Result<usize, Refusal>
    requires labels_held { LabelsHeld labels.old order.old 0 [] }
    requires s0_in_bounds { (length s0.now < length labels.old) × (length s0.now < length order.old) × (length s0.now < length word.old) }
    ensures { LabelPromise s0.now s1.now root labels.new order.new word.old word.new result }
{
    check_maps(s0, s1, root)?;
    label_maps(s0, s1, root, labels, order, word)
}
