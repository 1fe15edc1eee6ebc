// Runs. A run lies with the caller as 54 numbers.
ghost use Rattle.std.specs.Prelude.{◌≡◌, Result, ℕ, Option};
ghost use Rattle.refusals.specs.declared.Refusal.{Refusal};
ghost use Rattle.run_text.specs.declared.TextRows.{TextRows};
ghost use Rattle.run_steps.specs.Promises.{BeginPromise, BeginAtPromise, StepPromise};
ghost use Rattle.run_answers.specs.declared.Run.{Run};
ghost use Rattle.run_blocks.specs.Promises.{ListPromise, ListMarkedPromise};
ghost use Rattle.run_text.specs.Answers as text;
ghost use Rattle.run_text.specs.Promises.{RowsPromise};
ghost use Rattle.kaldvemir_answers.specs.Answers as answers;
ghost use Rattle.kaldvemir_layout_run.specs.Layout.{run_of, run_numbers};
ghost use Rattle.kaldvemir_layout_run.specs.Layout as layout;

#[unsafe(no_mangle)]
pub extern "C" fn kaldvemir_begin(size: u64, run: &mut [u16; 54]) -> u16
    ensures { (a : Result (Unit {0}) Refusal) × (next : Run)
        × BeginPromise size next a
        × (result ≡ answers.refusal_number a)
        × (run.new ≡ layout.begin_numbers a next run.old) }
{
    kaldvemir::runs::kaldvemir_begin(size, run)
}

#[unsafe(no_mangle)]
pub extern "C" fn kaldvemir_begin_at(size: u64, position: u64, run: &mut [u16; 54]) -> u16
    ensures { (a : Result (Unit {0}) Refusal) × (next : Run)
        × BeginAtPromise size position next a
        × (result ≡ answers.refusal_number a)
        × (run.new ≡ layout.begin_numbers a next run.old) }
{
    kaldvemir::runs::kaldvemir_begin_at(size, position, run)
}

#[unsafe(no_mangle)]
pub extern "C" fn kaldvemir_step(
    run: &mut [u16; 54],
    s0: &mut [u16],
    s1: &mut [u16],
    word: &mut [u16],
    written: &mut u64,
) -> u16
    ensures { (a : Result (Option ℕ) Refusal) × (next : Run)
        × StepPromise (run_of run.old) next s0.old s1.old word.old s0.new s1.new word.new a
        × (result ≡ answers.refusal_number a)
        × (written.new ≡ answers.step_length a written.old)
        × (run.new ≡ run_numbers next) }
{
    kaldvemir::runs::kaldvemir_step(run, s0, s1, word, written)
}

#[unsafe(no_mangle)]
pub extern "C" fn kaldvemir_list(
    run: &mut [u16; 54],
    rows: u64,
    s0: &mut [u16],
    s1: &mut [u16],
    words: &mut [u16],
    lengths: &mut [u16],
    given: &mut u64,
) -> u16
    ensures { (a : Result ℕ Refusal) × (next : Run)
        × ListPromise (run_of run.old) rows s0.old s1.old words.old lengths.old
        next s0.new s1.new words.new lengths.new a
        × (result ≡ answers.refusal_number a)
        × (given.new ≡ answers.list_rows a given.old)
        × (run.new ≡ run_numbers next) }
{
    kaldvemir::runs::kaldvemir_list(run, rows, s0, s1, words, lengths, given)
}

#[unsafe(no_mangle)]
pub extern "C" fn kaldvemir_list_marked(
    run: &mut [u16; 54],
    rows: u64,
    s0: &mut [u16],
    s1: &mut [u16],
    words: &mut [u16],
    lengths: &mut [u16],
    marks: &mut [u8],
    given: &mut u64,
) -> u16
    ensures { (a : Result ℕ Refusal) × (next : Run)
        × ListMarkedPromise (run_of run.old) rows s0.old s1.old words.old lengths.old marks.old
        next s0.new s1.new words.new lengths.new marks.new a
        × (result ≡ answers.refusal_number a)
        × (given.new ≡ answers.list_rows a given.old)
        × (run.new ≡ run_numbers next) }
{
    kaldvemir::runs::kaldvemir_list_marked(run, rows, s0, s1, words, lengths, marks, given)
}

#[unsafe(no_mangle)]
pub extern "C" fn kaldvemir_rows(
    run: &mut [u16; 54],
    rows: u64,
    bytes: &mut [u8],
    given: &mut u64,
    written: &mut u64,
    kept: &mut u64,
) -> u16
    ensures { (a : Result TextRows Refusal) × (next : Run)
        × RowsPromise (run_of run.old) rows bytes.old next bytes.new a
        × (result ≡ answers.refusal_number a)
        × (given.new ≡ text.rows_given a given.old)
        × (written.new ≡ text.rows_bytes a written.old)
        × (kept.new ≡ text.rows_kept a kept.old)
        × (run.new ≡ run_numbers next) }
{
    kaldvemir::runs::kaldvemir_rows(run, rows, bytes, given, written, kept)
}
