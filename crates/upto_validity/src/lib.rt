// Whether a run through all sizes up to a bound is valid: fresh, at a diagram with its visits, or finished with those of the last. A step refuses 34
// exactly if it is not.
#![tactic(auto)]

ghost use Rattle.std.specs.Prelude.{◌≡◌, true, false, ◌≤◌, length};
ghost use Rattle.lists.specs.Ranges.{OneTo};
ghost use Rattle.upto_validity.specs.Valid.{StagedUpto, ValidUpto};

use diagrams::Diagram;
use run_beginning::listed;
use run_validity::zeros;
use upto_answers::UptoRun;
use upto_size::word_size;
use upto_visits::{all_visits, visits_of};

// Whether a word and visits go with a stage.
fn staged(word: &[u16], stage: u64, n: u16, visits: u64) -> bool
    requires { OneTo 50 n × (length word.now ≤ 51) }
    ensures { (result ≡ true → StagedUpto stage n word.now visits) × (result ≡ false → ¬ StagedUpto stage n word.now visits) }
{
    if stage == 1 {
        if word_size(word, n) == 0 {
            return false;
        }
        return visits_of(word, n as usize) == visits;
    }
    if 0 < word.len() {
        return false;
    }
    if stage == 0 {
        return visits == 0;
    }
    if stage == 2 {
        return all_visits(n as usize) == visits;
    }
    false
}

// Whether a run is fresh, at a diagram with its visits, or finished with all.
pub fn valid(run: UptoRun) -> bool
    ensures { (result ≡ true → ValidUpto run) × (result ≡ false → ¬ ValidUpto run) }
{
    if !listed(run.bound) {
        return false;
    }
    if (Diagram::MAX_LISTED as u64) + 1 < run.length {
        return false;
    }
    let length = run.length as usize;
    let items = run.items;
    if zeros(&items[length..]) {
        return staged(&items[..length], run.stage, run.bound as u16, run.visits);
    }
    false
}
