// What the layouts of the book and of the run as numbers in a row share (crates kaldvemir_layout_book and kaldvemir_layout_run).
#![tactic(auto)]

ghost use Rattle.std.specs.Prelude.{◌≡◌};

// A 16-bit number as a 64-bit one.
pub fn long(x: u16) -> u64
    ensures { result ≡ x }
{
    x as u64
}
