// What each event of a word stores into the lists of a diagram and into the small array of its pending labels, whose top is at the upper end:
// at sizes up to 50 a ring of 1,025 links would cost more than the word.
#![tactic(auto)]

ghost use Rattle.std.specs.Prelude.{◌≡◌, ◌+◌, ◌-◌, ◌≤◌, ◌<◌, length, get_or, set};
ghost use Rattle.lists.specs.Lists.{put};
ghost use Rattle.lists.specs.Ranges.{OneTo};
ghost use Rattle.words_spelling_stores.specs.Stores.{set_three, Shifted};

use lists::{pair, to_index};

// Three entries, one after the other.
pub fn write_three(list: &mut [u16], place: usize, a: u16, b: u16, c: u16)
    requires { place + 3 ≤ length list.old }
    ensures { list.new ≡ set_three list.old place a b c }
{
    list[place] = a;
    list[place + 1] = b;
    list[place + 2] = c;
}

// Takes the label at a place out of the stack; those above it move down by one.
fn remove_at(stack: &mut [u16; 64], place: usize, height: usize)
    requires { (place < height) × (height ≤ 64) × (length stack.old ≡ 64) }
    ensures { Shifted stack.old stack.new place (height - 1) }
{
    for i in place..height - 1 {
        stack[i] = stack[i + 1];
    }
}

// F: k's partner is the next free label c, on a black vertex c, c + 1, c + 2; the last two are pushed.
pub fn add_triple(
    stack: &mut [u16; 64],
    s0: &mut [u16],
    s1: &mut [u16],
    k: u16,
    used: u16,
    height: usize,
)
    requires { OneTo used k × (used ≤ 50) × (height ≤ 50) × (used + 3 ≤ length s0.old) × (used + 3 ≤ length s1.old) }
    ensures { (stack.new ≡ set (set stack.old height (used + 2)) (height + 1) (used + 3))
        × (s0.new ≡ set_three s0.old used (used + 2) (used + 3) (used + 1))
        × (s1.new ≡ set_three (set s1.old (k - 1) (used + 1)) used k (used + 2) (used + 3)) }
{
    let u = to_index(used);
    let i = to_index(k) - 1;
    write_three(s0, u, used + 2, used + 3, used + 1);
    s1[i] = used + 1;
    write_three(s1, u, k, used + 2, used + 3);
    stack[height] = used + 2;
    stack[height + 1] = used + 3;
}

// B: k's partner is the next free label c, alone on its black vertex.
pub fn add_alone(s0: &mut [u16], s1: &mut [u16], k: u16, used: u16)
    requires { OneTo used k × (used ≤ 50) × (used + 1 ≤ length s0.old) × (used + 1 ≤ length s1.old) }
    ensures { (s0.new ≡ set s0.old used (used + 1)) × (s1.new ≡ set (set s1.old (k - 1) (used + 1)) used k) }
{
    let u = to_index(used);
    let i = to_index(k) - 1;
    s0[u] = used + 1;
    s1[i] = used + 1;
    s1[u] = k;
}

// Jd: k's partner is the pending label d places below the top; it is taken out of the stack.
pub fn join_pending(stack: &mut [u16; 64], s1: &mut [u16], k: u16, d: usize, height: usize)
    requires { (d < height) × (height ≤ 64) × (length stack.old ≡ 64) × OneTo (length s1.old) k × OneTo (length s1.old) (get_or stack.old (height - 1 - d) 0) }
    ensures { Shifted stack.old stack.new (height - 1 - d) (height - 1)
        × (let p = get_or stack.old (height - 1 - d) 0 in s1.new ≡ put (put s1.old k p) p k) }
{
    let place = height - 1 - d;
    let p = stack[place];
    remove_at(stack, place, height);
    pair(s1, k, p);
}
