// The rows of a run that lies with the caller as 54 numbers, as text.
#![tactic(auto)]

ghost use Rattle.std.specs.Prelude.{◌≡◌};
ghost use Rattle.refusals.specs.Numbers.{refusal_number};
ghost use Rattle.run_answers.specs.declared.Run.{Run};
ghost use Rattle.run_text.specs.Answers.{rows_given, rows_bytes, rows_kept};
ghost use Rattle.run_text.specs.Promises.{RowsPromise};
ghost use Rattle.kaldvemir_layout_run.specs.Layout.{run_of, run_numbers};

use kaldvemir_layout_run::{held, put_back};
use refusals::Refusal;
use run_text::TextRows;

// The run is written only where rows are given.
pub fn rows(run: &mut [u16; 54], asked: u64, out: &mut [u8]) -> Result<TextRows, Refusal>
    ensures { (next : Run)
        × RowsPromise (run_of run.old) asked out.old next out.new result
        × (run.new ≡ run_numbers next) }
{
    let done = run_text::rows(held(*run), asked, out);
    let next = done.run;
    match done.answer {
        Err(refusal) => Err(refusal),
        Ok(text) => {
            put_back(run, next.stage as u16, next.length as u16, next.items);
            Ok(text)
        }
    }
}

// What rows answered, told as a number and values behind pointers, as the answers of crate kaldvemir_answers are.
pub fn rows_answer(
    a: Result<TextRows, Refusal>,
    given: &mut u64,
    written: &mut u64,
    kept: &mut u64,
) -> u16
    ensures { (result ≡ refusal_number a)
        × (given.new ≡ rows_given a given.old)
        × (written.new ≡ rows_bytes a written.old)
        × (kept.new ≡ rows_kept a kept.old) }
{
    match a {
        Ok(text) => {
            *given = text.rows;
            *written = text.bytes;
            *kept = text.kept;
            0
        }
        Err(refusal) => refusal.number(),
    }
}
