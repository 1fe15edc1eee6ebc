// The tests of check that follow a list from edge to edge: whether s0 thrice and s1 twice give every edge back.
#![tactic(auto)]

ghost use Rattle.std.specs.Prelude.{◌≡◌, ◌↔◌, true, length};
ghost use Rattle.lists.specs.Lists.{at};
ghost use Rattle.lists.specs.Ranges.{OneTo};
ghost use Rattle.diagrams_entries.specs.Conditions.{Entries, Thrice, Twice};

use lists::to_index;

// The next edge after x round its vertex, by the list s.
pub fn next(s: &[u16], x: usize) -> usize
    requires { OneTo (length s.now) x }
    ensures { result ≡ at s.now x }
{
    to_index(s[x - 1])
}

// Whether s0 thrice gives every edge back.
pub fn thrice(s0: &[u16]) -> bool
    requires { Entries (length s0.now) s0.now }
    ensures { (result ≡ true) ↔ Thrice s0.now }
{
    let n = s0.len();
    for x in 1..=n {
        if next(s0, next(s0, next(s0, x))) != x {
            return false;
        }
    }
    true
}

// Whether s1 twice gives every edge back. Not one function with `thrice`: a number of steps would be a loop within the loop.
pub fn twice(s1: &[u16]) -> bool
    requires { Entries (length s1.now) s1.now }
    ensures { (result ≡ true) ↔ Twice s1.now }
{
    let n = s1.len();
    for x in 1..=n {
        if next(s1, next(s1, x)) != x {
            return false;
        }
    }
    true
}
