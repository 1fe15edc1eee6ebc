// The run as 54 numbers.
#![tactic(auto)]

ghost use Rattle.std.specs.Prelude.{◌≡◌, ◌∷◌, length, get_or, take, drop};
ghost use Rattle.std.proofs.Math.Seq.{paste};
ghost use Rattle.kaldvemir_layout_run.specs.Layout.{run_of};

use kaldvemir_layout::long;
use run_answers::Run;

// The 51 items among the numbers.
fn items_of(numbers: &[u16; 54]) -> [u16; 51]
    requires { length numbers.now ≡ 54 }
    ensures { result ≡ take 51 (drop 3 numbers.now) }
{
    let mut items = [0u16; 51];
    for i in 0..51 {
        items[i] = numbers[3 + i];
    }
    items
}

// Puts 51 items in their place.
fn put_items(numbers: &mut [u16; 54], items: &[u16; 51])
    requires { (length numbers.old ≡ 54) × (length items.now ≡ 51) }
    ensures { numbers.new ≡ paste numbers.old 3 items.now 51 }
{
    for i in 0..51 {
        numbers[3 + i] = items[i];
    }
}

// The run that the numbers are. By value, so that their number is known from their type.
pub fn held(numbers: [u16; 54]) -> Run
    ensures run { result ≡ run_of numbers }
    ensures whole { length numbers ≡ 54 }
{
    Run {
        size: long(numbers[0]),
        stage: long(numbers[1]),
        length: long(numbers[2]),
        items: items_of(&numbers),
    }
}

// Puts another stage, length and items in their place; the size stays.
pub fn put_back(numbers: &mut [u16; 54], stage: u16, len: u16, items: [u16; 51])
    requires { length numbers.old ≡ 54 }
    ensures { numbers.new ≡ get_or numbers.old 0 0 ∷ stage ∷ len ∷ items }
{
    numbers[1] = stage;
    numbers[2] = len;
    put_items(numbers, &items);
}
