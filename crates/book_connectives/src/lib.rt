// The connectives of the definitions' tests, each a function, so that a test in the code is the definition's own.
#![tactic(auto)]

ghost use Rattle.std.specs.Prelude.{◌≡◌, true, false, cond};
ghost use Rattle.book_connectives.specs.Connectives.{both, either, not, among, unless};

pub fn both(a: bool, b: bool) -> bool
    ensures { result ≡ both a b }
{
    if a {
        return b;
    }
    false
}

pub fn either(a: bool, b: bool) -> bool
    ensures { result ≡ either a b }
{
    if a {
        return true;
    }
    b
}

pub fn not(a: bool) -> bool
    ensures { result ≡ not a }
{
    if a {
        return false;
    }
    true
}

// Where a holds, b does.
pub fn implies(a: bool, b: bool) -> bool
    ensures { result ≡ cond a b true }
{
    if a {
        return b;
    }
    true
}

// The number of a refusal unless the test holds, and then what is answered after it.
pub fn unless(test: bool, number: u16, rest: u16) -> u16
    ensures { result ≡ unless test number rest }
{
    if test {
        return rest;
    }
    number
}

// x is one of 1..n.
pub fn among(n: u64, x: u64) -> bool
    ensures { result ≡ among n x }
{
    both(1 <= x, x <= n)
}
