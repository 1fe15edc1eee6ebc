// What a listing in blocks answers, and the tests before its first row, of the run and of the output lists. The answer's value is in specs/Answers,
// what the two operations promise in specs/Promises.
#![tactic(auto)]

ghost use Rattle.std.specs.Prelude.{◌≡◌, ◌⊎◌, true, false, suc, ◌*◌, ◌≤◌, ◌<◌};
ghost use Rattle.run_blocks_answers.specs.Tests.{TestedPromise};

use refusals::Refusal;
use run_answers::Run;
use run_validity::valid;

// How many diagrams were written, or a refusal. The run is not inside the Result, because ListPromise and ListMarkedPromise fix it in a refusal too: the
// run that was lent.
#[derive(Drop)]
pub struct Listed {
    pub answer: Result<u64, Refusal>,
    pub run: Run,
}

// Whether a list has fewer places than rows of so many places each.
pub fn short(places: usize, rows: usize, each: usize) -> bool
    requires { 1 ≤ each }
    ensures { (result ≡ true → places < rows * each) × (result ≡ false → ¬ (places < rows * each)) }
{
    places / each < rows
}

// Whether an output list is short for so many diagrams of n edges, their words and the words' lengths.
pub fn short_rows(n: usize, rows: usize, s0: usize, s1: usize, words: usize, lengths: usize) -> bool
    requires { (1 ≤ n) × (n ≤ 50) }
    ensures { (result ≡ true → (s0 < rows * n) ⊎ ((s1 < rows * n) ⊎ ((words < rows * suc n) ⊎ (lengths < rows))))
        × (result ≡ false → ¬ ((s0 < rows * n) ⊎ ((s1 < rows * n) ⊎ ((words < rows * suc n) ⊎ (lengths < rows))))) }
{
    if short(s0, rows, n) {
        return true;
    }
    if short(s1, rows, n) {
        return true;
    }
    if short(words, rows, n + 1) {
        return true;
    }
    lengths < rows
}

// What the tests before the first row say of a run that they do not refuse: rows are to be written, or the run is finished.
#[derive(Clone, Copy)]
pub enum Readiness {
    Ready,
    Finished,
}

// Tests a run and the lengths of the output lists: 34, then "finished", then 9.
pub fn tested(
    run: Run,
    rows: usize,
    s0: usize,
    s1: usize,
    words: usize,
    lengths: usize,
) -> Result<Readiness, Refusal>
    ensures { TestedPromise run rows s0 s1 words lengths result }
{
    if !valid(run) {
        return Err(Refusal::RunNotValid);
    }
    if run.stage == 2 {
        return Ok(Readiness::Finished);
    }
    if short_rows(run.size as usize, rows, s0, s1, words, lengths) {
        return Err(Refusal::ListShort);
    }
    Ok(Readiness::Ready)
}
