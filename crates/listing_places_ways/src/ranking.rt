// The place of items among the ways to go on: for each item, how many ways begin with an event before it.
ghost use Rattle.std.specs.Prelude.{◌≡◌, List, ◌∷◌, ℕ, suc, ◌+◌, ◌*◌, ◌≤◌};
ghost use Rattle.words.specs.Shape.{Fits};
ghost use Rattle.listing.specs.Ranking.{rank};
ghost use Rattle.listing_places_ways.specs.Steps.{Passed};

use crate::blocks::{ways_b, ways_f};
use lists::to_index;

// How many ways come before those with the item, and the height and the labels free after it.
#[derive(Clone, Copy)]
struct Block {
    before: u64,
    height: usize,
    free: usize,
}

// Jd: the ways with W, F and B come before, and d blocks of those with a lesser J.
fn join_block(h: usize, free: usize, d: usize) -> Block
    requires by_index { (w : List ℕ) × Fits (suc h) free (suc (suc (suc d)) ∷ w) }
    requires free_bound { 3 * h + free ≤ 53 }
    ensures { (w : List ℕ) → Fits (suc h) free (suc (suc (suc d)) ∷ w) → Passed (suc h) free (suc (suc (suc d))) w result.before result.height result.free }
{
    let before = listing_table::ways(h, free) + ways_f(h, free) + ways_b(h, free);
    let block = listing_table::ways(h - 1, free);
    Block {
        before: before + (d as u64) * block,
        height: h - 1,
        free,
    }
}

// The block of an item, a case for each event.
fn pass(height: usize, free: usize, item: u16) -> Block
    requires by_index { (w : List ℕ) × Fits height free (item ∷ w) }
    requires free_bound { 3 * height + free ≤ 56 }
    ensures { (w : List ℕ) → Fits height free (item ∷ w) → Passed height free item w result.before result.height result.free }
{
    let h = height - 1;
    match item {
        0 => Block {
            before: 0,
            height: h,
            free,
        },
        1 => Block {
            before: listing_table::ways(h, free),
            height: h + 2,
            free: free - 3,
        },
        2 => Block {
            before: listing_table::ways(h, free) + ways_f(h, free),
            height: h,
            free: free - 1,
        },
        _ => join_block(h, free, to_index(item - 3)),
    }
}

// The place of the items among the ways to go on, from 0.
pub fn rank(items: &[u16], height: usize, free: usize) -> u64
    requires { Fits height free items.now × (3 * height + free ≤ 56) }
    ensures { result ≡ rank height free items.now }
{
    let mut place: u64 = 0;
    let mut h = height;
    let mut f = free;
    for &item in items {
        let block = pass(h, f, item);
        place += block.before;
        h = block.height;
        f = block.free;
    }
    place
}
