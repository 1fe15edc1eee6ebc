// Laws about lists, ranges and tests that every layer above cites, and the small functions of code that they share.
#![tactic(auto)]

ghost use Rattle.std.specs.Prelude.{◌≡◌, true, false, cond, ◌+◌, ◌≤◌, leb, length};
ghost use Rattle.lists.specs.Lists.{put};
ghost use Rattle.lists.specs.Overwriting.{overwrite, overwrite_from};
ghost use Rattle.lists.specs.Ranges.{OneTo};

// A list entry as an index.
pub fn to_index(x: u16) -> usize
    ensures { result ≡ x }
{
    x as usize
}

// Makes the labels a and b each other's partner.
pub fn pair(s: &mut [u16], a: u16, b: u16)
    requires { OneTo (length s.old) a × OneTo (length s.old) b }
    ensures { s.new ≡ put (put s.old a b) b a }
{
    let i = to_index(a) - 1;
    let j = to_index(b) - 1;
    s[i] = b;
    s[j] = a;
}

// Fills the first places of dst with src; a dst that is too short is left as it is.
pub fn fill(dst: &mut [u16], src: &[u16])
    ensures { dst.new ≡ cond (leb (length src.now) (length dst.old)) (overwrite src.now dst.old) dst.old }
{
    let n = src.len();
    if dst.len() < n {
        return;
    }
    dst[..n].copy_from_slice(src);
}

// Writes src over dst from a place on.
pub fn fill_from(dst: &mut [u16], place: usize, src: &[u16])
    requires { place + length src.now ≤ length dst.old }
    ensures { dst.new ≡ overwrite_from place src.now dst.old }
{
    fill(&mut dst[place..], src);
}
