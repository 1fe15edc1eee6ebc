// The reply of the commands that list diagrams in blocks, and the copy of a list into an output list.
ghost use Rattle.std.specs.Prelude.{◌≤◌, length};

use crate::{Reply, listed, long};
use std::num::wrapping_add_u64;

// The most entries of an output list.
const MAX_ENTRIES: u64 = 2048;

// How many entries the lists of so many diagrams of n edges have, at most MAX_ENTRIES.
fn all_edges(rows: u64, n: u64) -> u64 {
    if MAX_ENTRIES < rows {
        return MAX_ENTRIES;
    }
    if MAX_ENTRIES < n {
        return MAX_ENTRIES;
    }
    rows * n
}

// How many items the words of a block have together: the sum of the first lengths, which never wraps.
fn all_items(lengths: &[u16], rows: u64) -> u64 {
    let mut total: u64 = 0;
    for (i, &length) in lengths.iter().enumerate() {
        if rows <= i as u64 {
            return total;
        }
        total = wrapping_add_u64(total, long(length));
    }
    total
}

// A block: how many diagrams, of how many edges; their black lists, white lists, words, the lengths of the words and the keep marks.
pub fn block(refusal: u16, rows: u64, edges: u16, lengths: &[u16]) -> Reply {
    let all = all_edges(rows, long(edges));
    listed(
        refusal,
        rows,
        [all, all, all_items(lengths, rows), rows, rows],
    )
}

// Copies a list to the beginning of another, as far as that is long enough, and returns how many entries it copied.
pub fn copy_into(list: &[u16], out: &mut [u16]) -> u64 {
    let count = list.len().min(out.len());
    out[..count].copy_from_slice(&list[..count]);
    count as u64
}
