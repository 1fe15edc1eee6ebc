// The least common multiple of two numbers, found with Euclid's remainders.
#![tactic(auto)]

ghost use Rattle.std.specs.Prelude.{◌≤◌};
ghost use Rattle.invariants_multiples.specs.Multiples.{GreatestCommonDivisor, HeldMultiple};

// Euclid's remainders: a call with the remainder has the same common divisors, and the second number falls from call to call, down to 0.
fn gcd(a: u64, b: u64) -> u64
    requires { 1 ≤ a }
    ensures { GreatestCommonDivisor a b result }
{
    if b == 0 { a } else { gcd(b, a % b) }
}

// The least common multiple of b and of the number that a stands for. 0 stands for a number of 2^64 or more, of which every multiple is one too.
// a is divided before it is multiplied: the product of both may pass 2^64 where their least common multiple does not.
pub fn common_multiple(a: u64, b: u64) -> u64
    requires { 1 ≤ b }
    ensures { HeldMultiple a b result }
{
    if a == 0 {
        return 0;
    }
    let quotient = a / gcd(a, b);
    if u64::MAX / b < quotient {
        return 0;
    }
    quotient * b
}
