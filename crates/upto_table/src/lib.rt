// How many branches there are from a stack of height h with at most f labels free on, as far as bounds up to 50 need it.
#![tactic(auto)]

ghost use Rattle.std.specs.Prelude.{◌≡◌};
ghost use Rattle.upto_table.specs.Branches.{entry, BranchesPromise};

// The number in the table; 0 where it has none.
fn look(h: usize, f: usize) -> u64
    ensures { result ≡ entry h f }
{
    if 56 < f {
        return 0;
    }
    if h < 6 {
        return upto_table_low::number(57 * h + f);
    }
    match h {
        6 => upto_table_rows::row6(f),
        7 => upto_table_rows::row7(f),
        8 => upto_table_rows::row8(f),
        9 => upto_table_rows::row9(f),
        10 => upto_table_rows::row10(f),
        11 => upto_table_rows::row11(f),
        12 => upto_table_rows::row12(f),
        13 => upto_table_rows::row13(f),
        14 => upto_table_rows::row14(f),
        15 => upto_table_rows::row15(f),
        16 => upto_table_rows::row16(f),
        17 => upto_table_rows::row17(f),
        18 => upto_table_rows::row18(f),
        _ => 0,
    }
}

// The number of branches where 3h + f is at most 56, which holds all along every word of a size up to 50; otherwise 0.
pub fn branches(h: usize, f: usize) -> u64
    ensures { BranchesPromise h f result }
{
    look(h, f)
}
