// Whether a run is valid: fresh, at a diagram of its size, or finished. A step refuses 34 exactly if it is not.
#![tactic(auto)]

ghost use Rattle.std.specs.Prelude.{◌≡◌, true, false, ◌≤◌, length, replicate};
ghost use Rattle.run_validity.specs.Valid.{Staged, ValidRun};

use diagrams::Diagram;
use listing_successor::is_word;
use run_answers::Run;
use run_beginning::listed;

// Whether all items are 0.
pub fn zeros(items: &[u16]) -> bool
    ensures { (result ≡ true → items.now ≡ replicate (length items.now) 0) × (result ≡ false → ¬ (items.now ≡ replicate (length items.now) 0)) }
{
    for &x in items {
        if x != 0 {
            return false;
        }
    }
    true
}

// Whether a word goes with a stage: a word of n edges with "at a diagram", and none with "fresh" and "finished".
fn staged(word: &[u16], stage: u64, n: u16) -> bool
    requires { n ≤ 50 }
    ensures { (result ≡ true → Staged stage n word.now) × (result ≡ false → ¬ Staged stage n word.now) }
{
    if stage == 1 {
        return is_word(word, n);
    }
    if 2 < stage {
        return false;
    }
    word.len() == 0
}

// Whether a run is fresh, at a diagram of its size, or finished.
pub fn valid(run: Run) -> bool
    ensures { (result ≡ true → ValidRun run) × (result ≡ false → ¬ ValidRun run) }
{
    if !listed(run.size) {
        return false;
    }
    if (Diagram::MAX_LISTED as u64) + 1 < run.length {
        return false;
    }
    let length = run.length as usize;
    let items = run.items;
    if zeros(&items[length..]) {
        return staged(&items[..length], run.stage, run.size as u16);
    }
    false
}
