// How many ways there are to go on from a stack of height h with f labels free, as far as sizes up to 50 need it.
#![tactic(auto)]

ghost use Rattle.std.specs.Prelude.{◌≡◌};
ghost use Rattle.listing_table.specs.Ways.{entry, WaysPromise};

// The number in the table; 0 where it has none.
fn look(h: usize, f: usize) -> u64
    ensures { result ≡ entry h f }
{
    if 56 < f {
        return 0;
    }
    if h < 6 {
        return listing_table_low::number(57 * h + f);
    }
    match h {
        6 => listing_table_rows::row6(f),
        7 => listing_table_rows::row7(f),
        8 => listing_table_rows::row8(f),
        9 => listing_table_rows::row9(f),
        10 => listing_table_rows::row10(f),
        11 => listing_table_rows::row11(f),
        12 => listing_table_rows::row12(f),
        13 => listing_table_rows::row13(f),
        14 => listing_table_rows::row14(f),
        15 => listing_table_rows::row15(f),
        16 => listing_table_rows::row16(f),
        17 => listing_table_rows::row17(f),
        18 => listing_table_rows::row18(f),
        _ => 0,
    }
}

// The number of ways where 3h + f is at most 56, which holds all along every word of a size up to 50; otherwise 0.
pub fn ways(h: usize, f: usize) -> u64
    ensures { WaysPromise h f result }
{
    look(h, f)
}
