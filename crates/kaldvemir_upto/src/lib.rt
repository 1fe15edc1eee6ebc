// A run through all sizes up to a bound that lies with the caller as 54 numbers, and beside them its visits.
#![tactic(auto)]

ghost use Rattle.std.specs.Prelude.{◌≡◌, length, Result};
ghost use Rattle.refusals.specs.declared.Refusal.{Refusal};
ghost use Rattle.refusals.specs.Numbers.{refusal_number};
ghost use Rattle.upto_answers.specs.declared.UptoRun.{UptoRun};
ghost use Rattle.upto_answers.specs.Answers.{upto_size, upto_length};
ghost use Rattle.upto_answers.specs.Promises.{UptoBeginPromise, UptoStepPromise};
ghost use Rattle.kaldvemir_upto.specs.Layout.{upto_of, upto_numbers, upto_begin_numbers, upto_begin_visits};

use kaldvemir_layout::long;
use kaldvemir_layout_run::{held, put_back};
use refusals::Refusal;
use upto_run::{UptoGiven, UptoRun};

// A fresh run is its bound and zeros.
pub fn begin(bound: u64, run: &mut [u16; 54], visits: &mut u64) -> u16
    ensures { (a : Result (Unit {0}) Refusal) × (next : UptoRun)
        × UptoBeginPromise bound next a
        × (result ≡ refusal_number a)
        × (run.new ≡ upto_begin_numbers a next run.old)
        × (visits.new ≡ upto_begin_visits a next visits.old) }
{
    let begun = upto_run::begin(bound);
    match begun.answer {
        Err(refusal) => refusal.number(),
        Ok(()) => {
            let mut numbers = [0u16; 54];
            numbers[0] = bound as u16;
            *run = numbers;
            *visits = 0;
            0
        }
    }
}

// The run that the numbers and the visits are.
fn lent(numbers: [u16; 54], visits: u64) -> UptoRun
    ensures run { result ≡ upto_of numbers visits }
    ensures whole { length numbers ≡ 54 }
{
    let plain = held(numbers);
    let items = plain.items;
    UptoRun {
        bound: plain.size,
        stage: plain.stage,
        length: plain.length,
        visits,
        items,
    }
}

// The numbers and the visits are written only where the step is not refused.
pub fn step(
    run: &mut [u16; 54],
    visits: &mut u64,
    s0: &mut [u16],
    s1: &mut [u16],
    word: &mut [u16],
) -> Result<Option<UptoGiven>, Refusal>
    ensures { (next : UptoRun)
        × UptoStepPromise (upto_of run.old visits.old) next s0.old s1.old word.old s0.new s1.new word.new result
        × (run.new ≡ upto_numbers next)
        × (visits.new ≡ next.visits) }
{
    let stepped = upto_run::step(lent(*run, *visits), s0, s1, word);
    let next = stepped.run;
    let items = next.items;
    match stepped.answer {
        Err(refusal) => Err(refusal),
        Ok(None) => {
            put_back(run, 2, 0, items);
            Ok(None)
        }
        Ok(Some(given)) => {
            put_back(run, 1, given.length, items);
            *visits = given.visits;
            Ok(Some(given))
        }
    }
}

// What a step answered, told as a number and values behind pointers, as the answers of crate kaldvemir_answers are.
pub fn step_answer(a: Result<Option<UptoGiven>, Refusal>, size: &mut u64, length: &mut u64) -> u16
    ensures { (result ≡ refusal_number a)
        × (size.new ≡ upto_size a size.old)
        × (length.new ≡ upto_length a length.old) }
{
    match a {
        Err(refusal) => refusal.number(),
        Ok(None) => {
            *size = 0;
            *length = 0;
            0
        }
        Ok(Some(given)) => {
            *size = long(given.size);
            *length = long(given.length);
            0
        }
    }
}
