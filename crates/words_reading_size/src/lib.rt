// The size of the diagram that a word spells, or the refusal of read word, without the diagram: the labels given and the labels pending are
// counted along the word and neither kept nor joined.
#![tactic(auto)]

ghost use Rattle.std.specs.Prelude.{◌≡◌, cond, List, [], ◌∷◌, ℕ, ◌+◌, ◌-◌, ◌≤◌, ◌<◌, leb, ltb, length};
ghost use Rattle.words_reading.specs.Read.{read_first, read};
ghost use Rattle.words_reading_events.specs.State.{State, read_on};
ghost use Rattle.words_reading_size.specs.Counting.{SizePromise, Counts, CountedAfter};

use diagrams::Diagram;
use refusals::Refusal;
use words_reading_events::LabelCounts;

// F and B give labels: 24 where one of them is above 1,024.
fn give(labels: u16, used: u16, height: u16) -> Result<LabelCounts, Refusal>
    requires { (labels ≤ 3) × (used ≤ 1024) }
    ensures { result ≡ cond (leb (used + labels) 1024) (Ok record { used = used + labels; height = height }) (Err Refusal.LabelTooLarge) }
{
    if (Diagram::MAX_SIZE as u16) < used + labels {
        return Err(Refusal::LabelTooLarge);
    }
    Ok(LabelCounts {
        used: used + labels,
        height,
    })
}

// Jd takes one of the labels that are pending after the pop: 23 where there are not more than d.
fn join(d: u16, used: u16, height: u16) -> Result<LabelCounts, Refusal>
    ensures { result ≡ cond (ltb d height) (Ok record { used = used; height = height - 1 }) (Err Refusal.JoinTooDeep) }
{
    if height <= d {
        return Err(Refusal::JoinTooDeep);
    }
    Ok(LabelCounts {
        used,
        height: height - 1,
    })
}

// One item after the first.
fn count_item(item: u16, counts: LabelCounts) -> Result<LabelCounts, Refusal>
    requires { (t : State) × Counts counts.used counts.height t }
    ensures { (t : State) → Counts counts.used counts.height t → (w : List ℕ) → CountedAfter (read_on (item ∷ w) t) w result }
{
    let LabelCounts { used, height } = counts;
    if height == 0 {
        return Err(Refusal::NoEdgePending);
    }
    match item {
        0 => give(0, used, height - 1),
        1 => give(3, used, height + 1),
        2 => give(1, used, height - 1),
        _ => join(item - 3, used, height - 1),
    }
}

// The items after the first, one by one, up to the first that is refused.
fn count_items(rest: &[u16], mut counts: LabelCounts) -> Result<LabelCounts, Refusal>
    requires { (t : State) × Counts counts.used counts.height t }
    ensures { (t : State) → Counts counts.used counts.height t → CountedAfter (read_on rest.now t) [] result }
{
    for &item in rest {
        counts = count_item(item, counts)?;
    }
    Ok(counts)
}

// All items of a word that has one.
fn count_word(word: &[u16]) -> Result<LabelCounts, Refusal>
    requires { 0 < length word.now }
    ensures { CountedAfter (read_first word.now) [] result }
{
    let counts = match word[0] {
        0 => LabelCounts { used: 1, height: 1 },
        1 => LabelCounts { used: 3, height: 3 },
        _ => return Err(Refusal::FirstItem),
    };
    count_items(&word[1..], counts)
}

// What read word answers where its lists are long enough: the size, or 21, 26, 22, 23, 24 or 25.
pub fn read_size(word: &[u16]) -> Result<u16, Refusal>
    ensures { SizePromise (read word.now) result }
{
    if word.len() == 0 {
        return Err(Refusal::WordLength);
    }
    if Diagram::MAX_SIZE + 1 < word.len() {
        return Err(Refusal::WordLength);
    }
    let counts = count_word(word)?;
    if counts.height != 0 {
        return Err(Refusal::EdgesPending);
    }
    Ok(counts.used)
}
