// The shares of a book: the positions that one holds, and its entry in the book's lists.
#![tactic(auto)]

ghost use Rattle.std.specs.Prelude.{◌≡◌, ℕ, ◌+◌, ◌*◌, ◌<◌, ◌≤◌, ◌^◌, ltb, length};
ghost use Rattle.lists.specs.Lists.{at};
ghost use Rattle.lists.specs.Ranges.{OneTo};
ghost use Rattle.listing.specs.Listing.{count};
ghost use Rattle.book.specs.Shares.{last};

// The count of a listed size, which leaves room to multiply it by a number of shares.
pub fn count_of(size: u64) -> u64
    requires { OneTo 50 size }
    ensures { (result ≡ count size) × (result < 2 ^ 50) }
{
    listing_places::count_of(size)
}

// The last position of share j of k, the count being `total`.
pub fn last_of(total: u64, k: u64, j: u64) -> u64
    requires { (total < 2 ^ 50) × OneTo 32 k × (j ≤ 32) }
    ensures { ((n : ℕ) → total ≡ count n → result ≡ last n k j) × (result < 2 ^ 56) }
{
    j * total / k
}

// Where the first j of k shares end: the quotient and the remainder of j times the count by k.
#[derive(Drop)]
pub struct Ends {
    pub last: u64,
    pub rest: u64,
}

// The same for one share more, without a division: step and part are the quotient and the remainder of the count by k.
pub fn onward(e: Ends, step: u64, part: u64, k: u64) -> Ends
    requires { (e.rest < k) × (part < k) × (k ≤ 32) × (e.last < 2 ^ 56) × (step < 2 ^ 50) }
    ensures { (result.rest < k) × (result.last * k + result.rest ≡ (e.last * k + e.rest) + (step * k + part)) }
{
    let rest = e.rest + part;
    if rest < k {
        return Ends {
            last: e.last + step,
            rest,
        };
    }
    Ends {
        last: e.last + step + 1,
        rest: rest - k,
    }
}

// Share j's entry in one of the book's lists.
pub fn entry(list: &[u64], j: u64) -> u64
    requires { OneTo 32 j × (length list.now ≡ 32) }
    ensures { result ≡ at list.now j }
{
    list[(j - 1) as usize]
}

// The next position p is past the last of share j of k.
pub fn past(size: u64, k: u64, j: u64, p: u64) -> bool
    requires { OneTo 50 size × OneTo 32 k × OneTo 32 j }
    ensures { result ≡ ltb (last size k j) p }
{
    last_of(count_of(size), k, j) < p
}
