// The answers of the share book's operations that have more than one value, told through the boundary as those of crate kaldvemir_answers are.
#![tactic(auto)]

ghost use Rattle.std.specs.Prelude.{◌≡◌};
ghost use Rattle.refusals.specs.Numbers.{refusal_number};
ghost use Rattle.book.specs.Answers as answers;

use book::{Progress, Taken};
use refusals::Refusal;

pub fn tell_taken(
    a: Result<Taken, Refusal>,
    share: &mut u64,
    position: &mut u64,
    length: &mut u64,
) -> u16
    ensures { (result ≡ refusal_number a)
        × (share.new ≡ answers.taking_share a share.old)
        × (position.new ≡ answers.taking_position a position.old)
        × (length.new ≡ answers.taking_length a length.old) }
{
    match a {
        Ok(taken) => {
            *share = taken.share;
            *position = taken.position;
            *length = taken.length;
            0
        }
        Err(refusal) => refusal.number(),
    }
}

pub fn tell_progress(a: Result<Progress, Refusal>, committed: &mut u64, complete: &mut u64) -> u16
    ensures { (result ≡ refusal_number a)
        × (committed.new ≡ answers.reporting_committed a committed.old)
        × (complete.new ≡ answers.reporting_complete a complete.old) }
{
    match a {
        Ok(progress) => {
            *committed = progress.committed;
            *complete = u64::from(progress.complete);
            0
        }
        Err(refusal) => refusal.number(),
    }
}
