// The count of a listed size, from the table of the ways to go on.
#![tactic(auto)]

ghost use Rattle.std.specs.Prelude.{◌≡◌};
ghost use Rattle.lists.specs.Ranges.{OneTo};
ghost use Rattle.listing.specs.Listing.{count};

// The words that begin with U, and from size 3 on those that begin with T.
pub fn count_of(size: u64) -> u64
    requires { OneTo 50 size }
    ensures { result ≡ count size }
{
    let n = size as usize;
    let single = listing_table::ways(1, n - 1);
    if n < 3 {
        return single;
    }
    single + listing_table::ways(3, n - 3)
}
