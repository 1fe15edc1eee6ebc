// The search of check: the edges that are reached from edge 1, by the black and the white list; and a quick test that often spares it.
#![tactic(auto)]

ghost use Rattle.std.specs.Prelude.{◌≡◌, ◌↔◌, true, ◌≤◌, length, take};
ghost use Rattle.lists.specs.Lists.{at};
ghost use Rattle.lists.specs.Ranges.{OneTo};
ghost use Rattle.diagrams_entries.specs.Conditions.{Connected, Mapped};
ghost use Rattle.diagrams_search.specs.Search.{added, Search};
ghost use Rattle.diagrams_search.specs.Lower.{LowerNeighbour, LowerNeighbours};

use diagrams_entries::all_reached;
use diagrams_orders::next;
use lists::to_index;

// Whether every edge but 1 has a neighbour with a smaller number, as in every characteristic labelling: then all are reached, by
// induction on the number, and no search is needed.
pub fn lower_neighbours(s0: &[u16], s1: &[u16]) -> bool
    requires { Mapped s0.now s1.now }
    ensures { (result ≡ true) ↔ LowerNeighbours s0.now s1.now }
{
    let n = s0.len();
    for x in 2..=n {
        if !has_lower(s0, s1, x) {
            return false;
        }
    }
    true
}

// Whether edge x has a neighbour with a smaller number. All three are looked at in any case, so that the caller's loop has no branch but
// the one that ends it early.
fn has_lower(s0: &[u16], s1: &[u16], x: usize) -> bool
    requires mapped { Mapped s0.now s1.now }
    requires one_to { OneTo (length s0.now) x }
    ensures { (result ≡ true) ↔ LowerNeighbour s0.now s1.now x }
{
    let a = next(s0, x);
    let b = next(s0, a);
    let c = next(s1, x);
    (a < x) | ((b < x) | (c < x))
}

// Whether every edge is reached from edge 1, with lent marks and list, all 0 at first. The list holds the edges reached so far, each
// once; its first ones, done of them, are visited, and the others are still to visit.
pub fn connected_in(s0: &[u16], s1: &[u16], marks: &mut [u8], list: &mut [u16]) -> bool
    requires mapped { Mapped s0.now s1.now }
    requires s0_in_bounds { length s0.now ≤ length marks.old }
    requires search { Search marks.old list.old 0 }
    ensures { (result ≡ true) ↔ Connected s0.now s1.now }
{
    let mut count = reach(marks, list, 0, 1);
    let mut done: usize = 0;
    // no range: the visits move the end
    while done < count {
        let k = to_index(list[done]);
        count = visit(s0, s1, marks, list, count, k);
        done += 1;
    }
    let n = s0.len();
    all_reached(&marks[..n])
}

// Visits edge k of the list: the next edges round its black and its white vertex are reached.
fn visit(
    s0: &[u16],
    s1: &[u16],
    marks: &mut [u8],
    list: &mut [u16],
    count: usize,
    k: usize,
) -> usize
    requires mapped { Mapped s0.now s1.now }
    requires s0_in_bounds { length s0.now ≤ length marks.old }
    requires one_to { OneTo (length s0.now) k }
    requires search { Search marks.old list.old count }
    ensures { Search marks.new list.new result
        × (take result list.new ≡ added (at s1.now k) (added (at s0.now k) (take count list.old))) }
{
    let more = reach(marks, list, count, s0[k - 1]);
    reach(marks, list, more, s1[k - 1])
}

// Edge x is reached: it is marked and put at the end of the list, unless it was before. Returns how many edges the list then has.
// Whether x is new is as good as random, so there is no branch on it: x is always written, and counted if its mark was 0.
fn reach(marks: &mut [u8], list: &mut [u16], count: usize, x: u16) -> usize
    requires search { Search marks.old list.old count }
    requires one_to { OneTo (length marks.old) x }
    ensures { Search marks.new list.new result × (take result list.new ≡ added x (take count list.old)) }
{
    let i = to_index(x) - 1;
    let mark = marks[i];
    marks[i] = 1;
    list[count] = x;
    count + (1 - mark) as usize
}
