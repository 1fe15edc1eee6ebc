// The items at a place among the ways to go on: the event in whose block the place falls, then the place within that block.
ghost use Rattle.std.specs.Prelude.{◌≡◌, List, ℕ, ◌+◌, ◌*◌, ◌-◌, ◌/◌, ◌%◌, ◌≤◌, ◌<◌, length};
ghost use Rattle.words.specs.Outputs.{overwrite};
ghost use Rattle.listing.specs.Listing.{ways};
ghost use Rattle.listing_places_ways.specs.Steps.{Chosen, Unranking};

use crate::blocks::{ways_b, ways_f};

// An event, with the height and the labels free after it, and the place among the ways to go on from there.
#[derive(Clone, Copy)]
pub struct Choice {
    pub item: u16,
    pub height: usize,
    pub free: usize,
    pub place: u64,
}

// Jd: the block that the place falls in, all blocks of the J being of one length.
fn choose_join(h: usize, free: usize, place: u64) -> Choice
    requires { (3 * h + free ≤ 53) × (place < h * ways (h - 1) free) }
    ensures { (result.item ≡ 3 + place / ways (h - 1) free) × (result.height ≡ h - 1) × (result.free ≡ free) × (result.place ≡ place % ways (h - 1) free) }
{
    let block = listing_table::ways(h - 1, free);
    Choice {
        item: 3 + (place / block) as u16,
        height: h - 1,
        free,
        place: place % block,
    }
}

// The first item of the way to go on at a place.
pub fn choose(height: usize, free: usize, place: u64) -> Choice
    requires { (1 ≤ height) × (3 * height + free ≤ 56) × (place < ways height free) }
    ensures { Chosen height free place result.item result.height result.free result.place }
{
    let h = height - 1;
    let by_w = listing_table::ways(h, free);
    if place < by_w {
        return Choice {
            item: 0,
            height: h,
            free,
            place,
        };
    }
    let past_w = place - by_w;
    let by_f = ways_f(h, free);
    if past_w < by_f {
        return Choice {
            item: 1,
            height: h + 2,
            free: free - 3,
            place: past_w,
        };
    }
    let past_f = past_w - by_f;
    let by_b = ways_b(h, free);
    if past_f < by_b {
        return Choice {
            item: 2,
            height: h,
            free: free - 1,
            place: past_f,
        };
    }
    choose_join(h, free, past_f - by_b)
}

// Writes the items from the place `next` on and returns the word's length.
pub fn unrank(word: &mut [u16], next: usize, height: usize, free: usize, place: u64) -> usize
    requires { (W a : List ℕ) × Unranking W a word.old next height free place }
    ensures { (W a : List ℕ) → Unranking W a word.old next height free place → (result ≡ length W) × (word.new ≡ overwrite W a) }
{
    let mut i = next;
    let mut h = height;
    let mut f = free;
    let mut p = place;
    // The height, and not the index, ends the loop.
    while 0 < h {
        let choice = choose(h, f, p);
        word[i] = choice.item;
        h = choice.height;
        f = choice.free;
        p = choice.place;
        i += 1;
    }
    i
}
