// The position of a word: the words that begin with U come before those that begin with T, and after the first item its place counts among the
// ways to go on.
ghost use Rattle.std.specs.Prelude.{◌≡◌, ◌≤◌};
ghost use Rattle.words.specs.Word.{Spells};
ghost use Rattle.listing.specs.Position.{position};

use listing_places_ways::ranking::rank;

// The position of a word of a listed size.
pub fn position_of(size: usize, word: &[u16]) -> u64
    requires { Spells size word.now × (size ≤ 50) }
    ensures { result ≡ position size word.now }
{
    match word[0] {
        0 => rank(&word[1..], 1, size - 1) + 1,
        _ => listing_table::ways(1, size - 1) + rank(&word[1..], 3, size - 3) + 1,
    }
}
