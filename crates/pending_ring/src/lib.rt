// The pending ring: a stack of labels in two lent arrays of 1,025 links, so that an edge can be taken out wherever it stands.
// Each contract is said of every stack that the arrays hold; arrays that are all zero hold the empty stack.
// A walk starts at the sentinel and carries its place as an index: compiled, a link then costs one load and no conversion.
#![tactic(auto)]

ghost use Rattle.std.specs.Prelude.{◌≡◌, List, [], ◌∷◌, ℕ, ◌<◌, length, get_or, drop};
ghost use Rattle.lists.specs.Lists.{Has, find, remove_at};
ghost use Rattle.pending_ring.specs.Ring.{Ring};

use lists::to_index;

// Takes out every label. Links of labels that were pending stay behind and do no harm. Right after two arrays are made it takes out none,
// but then the compiler need not clear the sentinel's links before: 2,048 bytes an array are cleared, and not 2,050, from which on the C
// library takes twice as long.
pub fn clear(next: &mut [u16; 1025], prev: &mut [u16; 1025])
    requires { (s : List ℕ) × Ring next.old prev.old s }
    ensures { Ring next.new prev.new [] }
{
    next[0] = 0;
    prev[0] = 0;
}

// Puts the label l on top.
pub fn push(next: &mut [u16; 1025], prev: &mut [u16; 1025], l: u16)
    requires l_nonzero { (0 < l) × (l < 1025) }
    requires by_index { (s : List ℕ) × Ring next.old prev.old s }
    ensures { (s : List ℕ) → Ring next.old prev.old s → ¬ Has l s → Ring next.new prev.new (l ∷ s) }
{
    let index = to_index(l);
    let top = next[0];
    let t = to_index(top);
    next[index] = top;
    next[0] = l;
    prev[index] = 0;
    prev[t] = l;
}

// Takes the top label off and returns it; 0, and no change, where none is pending.
pub fn pop(next: &mut [u16; 1025], prev: &mut [u16; 1025]) -> u16
    requires { (s : List ℕ) × Ring next.old prev.old s }
    ensures { (s : List ℕ) → Ring next.old prev.old s → (result ≡ get_or s 0 0) × Ring next.new prev.new (drop 1 s) }
{
    let top = next[0];
    let t = to_index(top);
    let below = next[t];
    let b = to_index(below);
    next[0] = below;
    prev[b] = 0;
    top
}

// Takes the label l out, wherever it stands.
pub fn unhook(next: &mut [u16; 1025], prev: &mut [u16; 1025], l: u16)
    requires { (s : List ℕ) × Ring next.old prev.old s × Has l s }
    ensures { (s : List ℕ) → Ring next.old prev.old s → Has l s → Ring next.new prev.new (remove_at (find l s) s) }
{
    let index = to_index(l);
    let above = prev[index];
    let below = next[index];
    let a = to_index(above);
    let b = to_index(below);
    next[a] = below;
    prev[b] = above;
}

// How many places below the top the pending label l stands.
pub fn depth(next: &[u16; 1025], l: u16) -> usize
    requires { (pv : List ℕ) × (s : List ℕ) × Ring next.now pv s × Has l s }
    ensures { (pv s : List ℕ) → Ring next.now pv s → Has l s → result ≡ find l s }
{
    let mut index: usize = 0;
    let mut d: usize = 0;
    // no range: the walk ends where it comes to l
    while next[index] != l {
        let below = next[index];
        index = to_index(below);
        d += 1;
    }
    d
}

// How many places below the top of a stack of that height the pending label l stands: two walks in step, down from the top and up from
// the bottom, until one of them meets l.
pub fn depth_between(next: &[u16; 1025], prev: &[u16; 1025], l: u16, height: usize) -> usize
    requires { (s : List ℕ) × Ring next.now prev.now s × Has l s × (height ≡ length s) }
    ensures { (s : List ℕ) → Ring next.now prev.now s → Has l s → height ≡ length s → result ≡ find l s }
{
    let mut down: usize = 0;
    let mut up: usize = 0;
    let mut i: usize = 0;
    // no range: the walks end where one of them comes to l
    while next[down] != l {
        if prev[up] == l {
            return height - 1 - i;
        }
        let below = next[down];
        let above = prev[up];
        down = to_index(below);
        up = to_index(above);
        i += 1;
    }
    i
}

// The label that stands d places below the top. With the links back for next, it is the one d places above the bottom.
fn label_at(next: &[u16; 1025], d: usize) -> u16
    requires { (pv : List ℕ) × (s : List ℕ) × Ring next.now pv s × (d < length s) }
    ensures { (pv s : List ℕ) → Ring next.now pv s → d < length s → result ≡ get_or s d 0 }
{
    let mut index: usize = 0;
    for _ in 0..d {
        let below = next[index];
        index = to_index(below);
    }
    next[index]
}

// The label that stands d places below the top of a stack of that height: a walk from the nearer end.
pub fn label_below(next: &[u16; 1025], prev: &[u16; 1025], d: usize, height: usize) -> u16
    requires { (s : List ℕ) × Ring next.now prev.now s × (height ≡ length s) × (d < length s) }
    ensures { (s : List ℕ) → Ring next.now prev.now s → height ≡ length s → d < length s → result ≡ get_or s d 0 }
{
    if d < height - d {
        return label_at(next, d);
    }
    label_at(prev, height - 1 - d)
}
