// The answers of a run's operations. An accepted call's run is put in the place of the lent one; of the lent numbers a step and a listing
// keep only the size, and a beginning none.
#![tactic(auto)]

ghost use Rattle.std.specs.Prelude.{◌≡◌, length};
ghost use Rattle.refusals.specs.Numbers.{refusal_number};
ghost use Rattle.run_blocks_answers.specs.Answers.{list_rows};
ghost use Rattle.run_answers.specs.Answers.{step_length};
ghost use Rattle.kaldvemir_layout_run.specs.Layout.{begin_numbers};
ghost use Rattle.kaldvemir_answers_run.specs.Runs.{FitsBegun, step_numbers, list_numbers, FitsRows};

use kaldvemir_layout::long;
use kaldvemir_layout_run::put_back;
use refusals::Refusal;
use run_answers::Run;

pub fn begin_answer(a: Result<(), Refusal>, next: Run, run: &mut [u16; 54]) -> u16
    requires { FitsBegun a next }
    ensures { (result ≡ refusal_number a) × (run.new ≡ begin_numbers a next run.old) }
{
    let items = next.items;
    match a {
        Err(refusal) => refusal.number(),
        Ok(()) => {
            let mut numbers = [0u16; 54];
            numbers[0] = next.size as u16;
            put_back(&mut numbers, next.stage as u16, next.length as u16, items);
            *run = numbers;
            0
        }
    }
}

pub fn step_answer(
    a: Result<Option<u16>, Refusal>,
    items: [u16; 51],
    run: &mut [u16; 54],
    written: &mut u64,
) -> u16
    requires { length run.old ≡ 54 }
    ensures { (result ≡ refusal_number a)
        × (written.new ≡ step_length a written.old)
        × (run.new ≡ step_numbers a items run.old) }
{
    match a {
        Err(refusal) => refusal.number(),
        Ok(None) => {
            put_back(run, 2, 0, items);
            *written = 0;
            0
        }
        Ok(Some(m)) => {
            put_back(run, 1, m, items);
            *written = long(m);
            0
        }
    }
}

pub fn list_answer(a: Result<u64, Refusal>, next: Run, run: &mut [u16; 54], given: &mut u64) -> u16
    requires { (length run.old ≡ 54) × FitsRows a next }
    ensures { (result ≡ refusal_number a)
        × (given.new ≡ list_rows a given.old)
        × (run.new ≡ list_numbers a next run.old) }
{
    let items = next.items;
    match a {
        Err(refusal) => refusal.number(),
        Ok(k) => {
            put_back(run, next.stage as u16, next.length as u16, items);
            *given = k;
            0
        }
    }
}
