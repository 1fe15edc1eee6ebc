// The plain walk: all words of a small size, one after another, by backtracking enumeration.
#![tactic(auto)]

ghost use Rattle.std.specs.Prelude.{◌≡◌, suc, ◌+◌, ◌≤◌, length, take};
ghost use Rattle.lists.specs.Overwriting.{overwrite_from};
ghost use Rattle.listing_plain_walk.specs.Promises.{PlainWalkPromise};
ghost use Rattle.listing_plain_walk.specs.Walk.{WalkRoom, WalkAdded};

use listing_plain_walk_events::after_event;
use refusals::Refusal;

// Writes the first len items of word into out from a place on, and gives the place after them. In a loop, because for a slice that is copied here
// the archive for C would ask for `memmove`, and it is to ask for `memcpy` and `memset` alone.
fn write(out: &mut [u16], place: usize, word: &[u16], len: usize) -> usize
    requires { (place + len ≤ length out.old) × (len ≤ length word.now) }
    ensures { (result ≡ place + len) × (out.new ≡ overwrite_from place (take len word.now) out.old) }
{
    for i in 0..len {
        out[place + i] = word[i];
    }
    place + len
}

// Branches on the events W, F, B, J0, J1, .. of an edge that is popped already; h edges are pending besides it.
#[cycle(branch_end_or_pop)]
fn branch(out: &mut [u16], place: usize, word: &mut [u16], len: usize, h: u16, f: u16) -> usize
    requires { WalkRoom out.old place word.old len (suc h) f }
    ensures { WalkAdded out.old place word.old len (suc h) f out.new word.new result }
{
    let mut end = place;
    for e in 0..h + 3 {
        let left = after_event(e, h, f);
        word[len] = e;
        end = end_or_pop(out, end, word, len + 1, left.h, left.f);
    }
    end
}

// Ends the word if no edge is pending, and writes it if no label is free either; otherwise pops an edge.
#[cycle(branch_end_or_pop)]
fn end_or_pop(out: &mut [u16], place: usize, word: &mut [u16], len: usize, h: u16, f: u16) -> usize
    requires { WalkRoom out.old place word.old len h f }
    ensures { WalkAdded out.old place word.old len h f out.new word.new result }
{
    if h == 0 {
        let all_given = f == 0;
        if all_given {
            write(out, place, word, len)
        } else {
            place
        }
    } else {
        branch(out, place, word, len, h - 1, f)
    }
}

// Writes all words of size n, one after another: those that begin with U, then those that begin with T. Refuses
// 35, a size outside 1..9, and 9, a list of fewer than 1,024 numbers.
pub fn plain_walk(n: u64, out: &mut [u16]) -> Result<usize, Refusal>
    ensures { PlainWalkPromise n out.old out.new result }
{
    if n < 1 || 9 < n {
        return Err(Refusal::WalkSizeOutOfRange);
    }
    if out.len() < 1024 {
        return Err(Refusal::ListShort);
    }
    let size = n as u16;
    let mut word = [0u16; 16];
    let end = end_or_pop(out, 0, &mut word, 1, 1, size - 1);
    if size < 3 {
        return Ok(end);
    }
    word[0] = 1;
    Ok(end_or_pop(out, end, &mut word, 1, 3, size - 3))
}
