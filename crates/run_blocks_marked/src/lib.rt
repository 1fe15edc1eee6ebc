// Listing in blocks with keep marks: the next diagrams of a run and the mark of each. The run is tested once for the whole block. Refuses
// 34, a run that is neither fresh, nor at a diagram, nor finished; a finished run answers "no rows"; then 9, an output list that is short.
// Fewer rows than asked for: the list ended, and the run is finished.
#![tactic(auto)]

ghost use Rattle.run_blocks_answers.specs.Promises.{ListMarkedPromise};

use refusals::Refusal;
use run_answers::Run;
use run_blocks_answers::{Listed, Readiness, tested};
use run_marks::mark_rows;
use run_rows::rows_of;

// The next diagrams of a run, at most as many as the rows asked for, and the keep mark of each, 1 or 0.
pub fn list_marked(
    run: Run,
    rows: u64,
    s0: &mut [u16],
    s1: &mut [u16],
    words: &mut [u16],
    lengths: &mut [u16],
    marks: &mut [u8],
) -> Listed
    ensures { ListMarkedPromise run rows s0.old s1.old words.old lengths.old marks.old
        result.run s0.new s1.new words.new lengths.new marks.new result.answer }
{
    let count = rows as usize;
    let n = run.size as usize;
    let readiness = tested(run, count, s0.len(), s1.len(), words.len(), lengths.len());
    match readiness {
        Err(refusal) => Listed {
            answer: Err(refusal),
            run,
        },
        Ok(Readiness::Finished) => Listed { answer: Ok(0), run },
        Ok(Readiness::Ready) => {
            if marks.len() < count {
                return Listed {
                    answer: Err(Refusal::ListShort),
                    run,
                };
            }
            let reached = rows_of(run, count, s0, s1, words, lengths);
            mark_rows(n, reached.rows, s0, s1, words, lengths, marks);
            let next = reached.run;
            Listed {
                answer: Ok(reached.rows as u64),
                run: next,
            }
        }
    }
}
