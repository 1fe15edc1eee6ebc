// How many of the ways to go on begin with F and with B, at a stack of h labels besides the one that is popped.
ghost use Rattle.std.specs.Prelude.{◌≡◌, ◌+◌, ◌*◌, ◌≤◌};
ghost use Rattle.listing.specs.Ranking.{ways_f, ways_b};

pub fn ways_f(h: usize, f: usize) -> u64
    requires { 3 * h + f ≤ 53 }
    ensures { result ≡ ways_f h f }
{
    if f < 3 {
        return 0;
    }
    listing_table::ways(h + 2, f - 3)
}

pub fn ways_b(h: usize, f: usize) -> u64
    requires { 3 * h + f ≤ 53 }
    ensures { result ≡ ways_b h f }
{
    if f < 1 {
        return 0;
    }
    listing_table::ways(h, f - 1)
}
