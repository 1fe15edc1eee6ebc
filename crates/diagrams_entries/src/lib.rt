// The tests of check that look at each number once: whether a number is one of 1..n, whether every entry of a list is, and whether
// every mark of a search is 1.
#![tactic(auto)]

ghost use Rattle.std.specs.Prelude.{◌≡◌, ◌↔◌, true, length};
ghost use Rattle.lists.specs.Ranges.{OneTo};
ghost use Rattle.diagrams_entries.specs.Conditions.{Size, Entries, AllOne};

// Whether x is one of 1..n. Takes 64 bits, so that no size and no root is cut short before it is tested.
pub fn within(x: u64, n: usize) -> bool
    ensures { (result ≡ true) ↔ OneTo n x }
{
    if x < 1 {
        return false;
    }
    x <= n as u64
}

// Whether every entry is an edge. It looks at all entries in any case, so that several can be looked at together.
pub fn entries_in(s: &[u16]) -> bool
    requires { Size s.now }
    ensures { (result ≡ true) ↔ Entries (length s.now) s.now }
{
    let n = s.len() as u16;
    let mut good = true;
    for &x in s {
        good &= (1 <= x) & (x <= n);
    }
    good
}

// Whether every mark is 1. A reached mark is one byte per edge, 1 when reached and otherwise 0; any other byte is no mark of a
// reached edge.
pub fn all_reached(marks: &[u8]) -> bool
    ensures { (result ≡ true) ↔ AllOne marks.now }
{
    let mut all = true;
    for &mark in marks {
        all &= mark == 1;
    }
    all
}
