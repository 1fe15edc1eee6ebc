// A step of a run. It refuses 34, a run that is neither fresh, nor at a diagram, nor finished; a finished run answers "end"; then it
// refuses 9, an output list that is short.
#![tactic(auto)]

ghost use Rattle.run_answers.specs.Promises.{StepPromise};

use refusals::Refusal;
use run_answers::{Run, Stepped};
use run_beginning::empty;
use run_next_diagram::{give, next_word, short};
use run_validity::valid;

// The next diagram of a run, or "end" after the last.
pub fn step(run: Run, s0: &mut [u16], s1: &mut [u16], word: &mut [u16]) -> Stepped
    ensures { StepPromise run result.run s0.old s1.old word.old s0.new s1.new word.new result.answer }
{
    if !valid(run) {
        return Stepped {
            answer: Err(Refusal::RunNotValid),
            run,
        };
    }
    if run.stage == 2 {
        return Stepped {
            answer: Ok(None),
            run,
        };
    }
    if short(run.size as usize, s0.len(), s1.len(), word.len()) {
        return Stepped {
            answer: Err(Refusal::ListShort),
            run,
        };
    }
    let next = next_word(run);
    if next.length == 0 {
        return Stepped {
            answer: Ok(None),
            run: empty(run.size, 2),
        };
    }
    give(run.size, next, s0, s1, word)
}
