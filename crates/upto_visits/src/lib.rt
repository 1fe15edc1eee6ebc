// The branch visits at a word of the single list, counted along the word: for each item the branch that it stands on, and the branches that begin
// with an event before it, which the table has.
#![tactic(auto)]

ghost use Rattle.std.specs.Prelude.{◌≡◌, List, ◌∷◌, ℕ, suc, ◌+◌, ◌*◌, ◌≤◌};
ghost use Rattle.lists.specs.Ranges.{OneTo};
ghost use Rattle.upto_words.specs.Within.{FitsWithin, WordWithin};
ghost use Rattle.upto_weights.specs.Weights.{weight_f, weight_b, passed, passed_word, whole_weight};
ghost use Rattle.upto_visits.specs.Steps.{PassedBranches};

use lists::to_index;
use upto_table::branches;

// The branches met before what comes after an item, and the height and the labels free after it.
#[derive(Drop)]
struct Passed {
    before: u64,
    height: usize,
    free: usize,
}

// The branches that begin with F, at a stack of h labels besides the one that is popped.
fn branches_f(h: usize, f: usize) -> u64
    requires { 3 * h + f ≤ 53 }
    ensures { result ≡ weight_f 0 1 h f }
{
    if f < 3 {
        return 0;
    }
    branches(h + 2, f - 3)
}

// The branches that begin with B.
fn branches_b(h: usize, f: usize) -> u64
    requires { 3 * h + f ≤ 53 }
    ensures { result ≡ weight_b 0 1 h f }
{
    if f < 1 {
        return 0;
    }
    branches(h, f - 1)
}

// Jd: the branches with W, F and B come before, and d times those with a lesser J.
fn pass_join(h: usize, free: usize, d: usize) -> Passed
    requires by_index { (w : List ℕ) × FitsWithin (suc h) free (suc (suc (suc d)) ∷ w) }
    requires free_bound { 3 * h + free ≤ 53 }
    ensures { (w : List ℕ) → FitsWithin (suc h) free (suc (suc (suc d)) ∷ w) → PassedBranches (suc h) free (suc (suc (suc d))) w result.before result.height result.free }
{
    let before = 1 + branches(h, free) + branches_f(h, free) + branches_b(h, free);
    let each = branches(h - 1, free);
    Passed {
        before: before + (d as u64) * each,
        height: h - 1,
        free,
    }
}

// An item passed, a case for each event.
fn pass(height: usize, free: usize, item: u16) -> Passed
    requires by_index { (w : List ℕ) × FitsWithin height free (item ∷ w) }
    requires free_bound { 3 * height + free ≤ 56 }
    ensures { (w : List ℕ) → FitsWithin height free (item ∷ w) → PassedBranches height free item w result.before result.height result.free }
{
    let h = height - 1;
    match item {
        0 => Passed {
            before: 1,
            height: h,
            free,
        },
        1 => Passed {
            before: 1 + branches(h, free),
            height: h + 2,
            free: free - 3,
        },
        2 => Passed {
            before: 1 + branches(h, free) + branches_f(h, free),
            height: h,
            free: free - 1,
        },
        _ => pass_join(h, free, to_index(item - 3)),
    }
}

// The branches met from a state on, up to the end of the items.
fn visits_from(items: &[u16], height: usize, free: usize) -> u64
    requires { FitsWithin height free items.now × (3 * height + free ≤ 56) }
    ensures { result ≡ passed 0 1 height free items.now }
{
    let mut visits: u64 = 0;
    let mut h = height;
    let mut f = free;
    for &item in items {
        let step = pass(h, f, item);
        visits += step.before;
        h = step.height;
        f = step.free;
    }
    visits
}

// The branch visits at a word of the single list of bound n.
pub fn visits_of(word: &[u16], n: usize) -> u64
    requires { WordWithin n word.now × (n ≤ 50) }
    ensures { result ≡ passed_word 0 1 n word.now }
{
    match word[0] {
        0 => visits_from(&word[1..], 1, n - 1),
        _ => branches(1, n - 1) + visits_from(&word[1..], 3, n - 3),
    }
}

// The branches of the whole list: the visits at its last word.
pub fn all_visits(n: usize) -> u64
    requires { OneTo 50 n }
    ensures { result ≡ whole_weight 0 1 n }
{
    if n < 3 {
        return branches(1, n - 1);
    }
    branches(1, n - 1) + branches(3, n - 3)
}
