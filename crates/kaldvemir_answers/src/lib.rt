// An answer told through the boundary: its number is returned, and its values are written where it has them. Nothing is written of a
// refusal but a compare's side, and nothing that stands behind a reference is read.
#![tactic(auto)]

ghost use Rattle.std.specs.Prelude.{◌≡◌};
ghost use Rattle.kaldvemir_answers.specs.Answers as answers;

use invariants::Numbers;
use labelling_answers::{Side, SideRefusal};
use refusals::Refusal;

// The number of an answer: 0 where the call was accepted, otherwise its refusal's.
pub fn number_of<T: Drop>(a: Result<T, Refusal>) -> u16
    ensures { result ≡ answers.refusal_number a }
{
    a.err().map_or(0, Refusal::number)
}

// Tells an answer that has one value where it is accepted.
pub fn tell(a: Result<u64, Refusal>, value: &mut u64) -> u16
    ensures number { result ≡ answers.refusal_number a }
    ensures told { value.new ≡ answers.told_value a value.old }
{
    if let Ok(told) = a {
        *value = told;
    }
    number_of(a)
}

pub fn tell_comparison(a: Result<bool, SideRefusal>, same: &mut u64, side: &mut u64) -> u16
    ensures { (result ≡ answers.compare_number a)
        × (same.new ≡ answers.compare_same a same.old)
        × (side.new ≡ answers.compare_side a side.old) }
{
    match a {
        Ok(equal) => {
            *same = u64::from(equal);
            0
        }
        Err(refused) => {
            *side = match refused.side {
                Side::First => 1,
                Side::Second => 2,
            };
            refused.refusal.number()
        }
    }
}

pub fn tell_kept(a: Result<bool, Refusal>, kept: &mut u64) -> u16
    ensures { (result ≡ answers.refusal_number a) × (kept.new ≡ answers.kept_mark a kept.old) }
{
    if let Ok(mark) = a {
        *kept = u64::from(mark);
    }
    number_of(a)
}

pub fn tell_invariants(
    a: Result<Numbers, Refusal>,
    e2: &mut u16,
    e3: &mut u16,
    c: &mut u16,
    t: &mut i32,
    level: &mut u64,
) -> u16
    ensures { (result ≡ answers.refusal_number a)
        × (e2.new ≡ answers.invariants_e2 a e2.old)
        × (e3.new ≡ answers.invariants_e3 a e3.old)
        × (c.new ≡ answers.invariants_c a c.old)
        × (t.new ≡ answers.invariants_t a t.old)
        × (level.new ≡ answers.invariants_level a level.old) }
{
    match a {
        Ok(numbers) => {
            *e2 = numbers.e2;
            *e3 = numbers.e3;
            *c = numbers.c;
            *t = numbers.t;
            *level = numbers.level;
            0
        }
        Err(refusal) => refusal.number(),
    }
}
