// Count and diagram at a position, and what these two and position of a diagram (crate listing_position) promise.
#![tactic(auto)]

ghost use Rattle.std.specs.Prelude.{◌≡◌, length};
ghost use Rattle.lists.specs.Ranges.{OneTo};
ghost use Rattle.words.specs.Outputs.{Short, Written};
ghost use Rattle.listing.specs.Listing.{count};
ghost use Rattle.listing.specs.Position.{word_at};
ghost use Rattle.listing.specs.Diagrams.{diagram_at};
ghost use Rattle.listing_ranking.specs.Promises.{CountPromise, DiagramAtPromise};

use diagrams::Diagram;
use listing_places::count_of;
use listing_unranking::write_at;
use refusals::Refusal;

// How many words spell a diagram of n edges. Refuses 31, a size outside 1..50.
pub fn count(n: u64) -> Result<u64, Refusal>
    ensures { CountPromise n result }
{
    if n < 1 {
        return Err(Refusal::ListedSizeOutOfRange);
    }
    if (Diagram::MAX_LISTED as u64) < n {
        return Err(Refusal::ListedSizeOutOfRange);
    }
    Ok(count_of(n))
}

// Writes the diagram at position p of size n, which has root 1 and is in its characteristic labelling, and its word, whose length
// it returns. Refuses 31; 32, a position that is 0 or above the count; 9, an output list that is short (n, n, and n + 1).
pub fn diagram_at(
    n: u64,
    p: u64,
    s0: &mut [u16],
    s1: &mut [u16],
    word: &mut [u16],
) -> Result<u16, Refusal>
    ensures { DiagramAtPromise n p s0.old s1.old word.old s0.new s1.new word.new result }
{
    if n < 1 {
        return Err(Refusal::ListedSizeOutOfRange);
    }
    if (Diagram::MAX_LISTED as u64) < n {
        return Err(Refusal::ListedSizeOutOfRange);
    }
    if p < 1 {
        return Err(Refusal::PositionOutOfRange);
    }
    if count_of(n) < p {
        return Err(Refusal::PositionOutOfRange);
    }
    let size = n as usize;
    if s0.len() < size {
        return Err(Refusal::ListShort);
    }
    if s1.len() < size {
        return Err(Refusal::ListShort);
    }
    if word.len() <= size {
        return Err(Refusal::ListShort);
    }
    Ok(write_at(n, p, s0, s1, word) as u16)
}
