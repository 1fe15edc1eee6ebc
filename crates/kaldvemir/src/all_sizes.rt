// Runs through all sizes up to a bound. Such a run lies with the caller as 54 numbers, and beside them its visits.
ghost use Rattle.std.specs.Prelude.{◌≡◌, Result, Option};
ghost use Rattle.refusals.specs.declared.Refusal.{Refusal};
ghost use Rattle.upto_answers.specs.declared.UptoGiven.{UptoGiven};
ghost use Rattle.refusals.specs.Numbers.{refusal_number};
ghost use Rattle.upto_answers.specs.declared.UptoRun.{UptoRun};
ghost use Rattle.upto_answers.specs.Answers.{upto_size, upto_length};
ghost use Rattle.upto_answers.specs.Promises.{UptoBeginPromise, UptoStepPromise};
ghost use Rattle.kaldvemir_upto.specs.Layout.{upto_of, upto_numbers, upto_begin_numbers, upto_begin_visits};

#[unsafe(no_mangle)]
pub extern "C" fn kaldvemir_upto_begin(bound: u64, run: &mut [u16; 54], visits: &mut u64) -> u16
    ensures { (a : Result (Unit {0}) Refusal) × (next : UptoRun)
        × UptoBeginPromise bound next a
        × (result ≡ refusal_number a)
        × (run.new ≡ upto_begin_numbers a next run.old)
        × (visits.new ≡ upto_begin_visits a next visits.old) }
{
    kaldvemir_upto::begin(bound, run, visits)
}

#[unsafe(no_mangle)]
pub extern "C" fn kaldvemir_upto_step(
    run: &mut [u16; 54],
    visits: &mut u64,
    s0: &mut [u16],
    s1: &mut [u16],
    word: &mut [u16],
    size: &mut u64,
    length: &mut u64,
) -> u16
    ensures { (a : Result (Option UptoGiven) Refusal) × (next : UptoRun)
        × UptoStepPromise (upto_of run.old visits.old) next s0.old s1.old word.old s0.new s1.new word.new a
        × (result ≡ refusal_number a)
        × (size.new ≡ upto_size a size.old)
        × (length.new ≡ upto_length a length.old)
        × (visits.new ≡ next.visits)
        × (run.new ≡ upto_numbers next) }
{
    let answer = kaldvemir_upto::step(run, visits, s0, s1, word);
    kaldvemir_upto::step_answer(answer, size, length)
}
