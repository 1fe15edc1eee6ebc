// Listing in blocks: the next diagrams of a run, as that many steps would give them. The run is tested once for the whole block. Refuses
// 34, a run that is neither fresh, nor at a diagram, nor finished; a finished run answers "no rows"; then 9, an output list that is short.
// Fewer rows than asked for: the list ended, and the run is finished.
#![tactic(auto)]

ghost use Rattle.run_blocks_answers.specs.Promises.{ListPromise};

use run_answers::Run;
use run_blocks_answers::{Listed, Readiness, tested};
use run_rows::rows_of;

// The next diagrams of a run, at most as many as the rows asked for: black lists, white lists, words and lengths of words, one after another.
pub fn list(
    run: Run,
    rows: u64,
    s0: &mut [u16],
    s1: &mut [u16],
    words: &mut [u16],
    lengths: &mut [u16],
) -> Listed
    ensures { ListPromise run rows s0.old s1.old words.old lengths.old
        result.run s0.new s1.new words.new lengths.new result.answer }
{
    let readiness = tested(
        run,
        rows as usize,
        s0.len(),
        s1.len(),
        words.len(),
        lengths.len(),
    );
    match readiness {
        Err(refusal) => Listed {
            answer: Err(refusal),
            run,
        },
        Ok(Readiness::Finished) => Listed { answer: Ok(0), run },
        Ok(Readiness::Ready) => {
            let reached = rows_of(run, rows as usize, s0, s1, words, lengths);
            let next = reached.run;
            Listed {
                answer: Ok(reached.rows as u64),
                run: next,
            }
        }
    }
}
