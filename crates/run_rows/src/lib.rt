// The rows of a block, with the lists that spelling needs made here, once for the block.
#![tactic(auto)]

ghost use Rattle.std.specs.Prelude.{ℕ};
ghost use Rattle.run_answers.specs.Promises.{RunAt};
ghost use Rattle.run_rows_writing.specs.Promises.{ShortRows, RowsGiven};

use run_answers::Run;
use run_rows_writing::{Reached, write_rows};

// The rows of a run that is not finished, into lists that are long enough.
pub fn rows_of(
    run: Run,
    rows: usize,
    s0: &mut [u16],
    s1: &mut [u16],
    words: &mut [u16],
    lengths: &mut [u16],
) -> Reached
    requires { (p : ℕ) × RunAt run.size p run × (¬ ShortRows run.size rows s0.old s1.old words.old lengths.old) }
    ensures { RowsGiven run rows result.rows result.run s0.old s1.old words.old lengths.old
        s0.new s1.new words.new lengths.new }
{
    let mut stack = [0u16; 64];
    let mut popped = [0u16; 64];
    let mut d0 = [0u16; 64];
    let mut d1 = [0u16; 64];
    write_rows(
        run,
        rows,
        &mut stack,
        &mut popped,
        &mut d0,
        &mut d1,
        s0,
        s1,
        words,
        lengths,
    )
}
