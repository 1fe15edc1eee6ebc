// The word at a position: its first item, and then the items at the place that is left among the ways to go on.
ghost use Rattle.std.specs.Prelude.{◌≡◌, suc, ◌≤◌, length};
ghost use Rattle.lists.specs.Ranges.{OneTo};
ghost use Rattle.words.specs.Outputs.{overwrite};
ghost use Rattle.listing.specs.Listing.{count};
ghost use Rattle.listing.specs.Position.{word_at};

use listing_places_ways::unranking::unrank;

// Writes the word at position p of a listed size over the beginning of the list and returns its length.
pub fn word_at(size: u64, p: u64, word: &mut [u16]) -> usize
    requires { OneTo 50 size × OneTo (count size) p × (suc size ≤ length word.old) }
    ensures { (result ≡ length (word_at size p)) × (word.new ≡ overwrite (word_at size p) word.old) }
{
    let n = size as usize;
    let place = p - 1;
    let single = listing_table::ways(1, n - 1);
    if place < single {
        word[0] = 0;
        return unrank(word, 1, 1, n - 1, place);
    }
    word[0] = 1;
    unrank(word, 1, 3, n - 3, place - single)
}
