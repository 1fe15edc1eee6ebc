// The smaller of two lists as `lesser` hands it back. The part handed back tells which of the two it is, and no item is compared again.
#![tactic(auto)]

ghost use Rattle.std.specs.Prelude.{◌≡◌, ◌≢◌, length};
ghost use Rattle.words.specs.Order.{precedes};

// Whether the second of two lists of unlike lengths is the smaller: the part handed back has the second's length.
fn second_by_length<'a>(a: &'a [u16], b: &'a [u16]) -> bool
    requires { length a.now ≢ length b.now }
    ensures { result ≡ precedes b.now a.now }
{
    let least = words::lesser(a, b);
    least.len() == b.len()
}

// Whether the second of two lists is the smaller. Of two lists of one length the one with the smaller last item, or the first where these
// are equal, is taken without its last item: the order stays, and the lengths are unlike.
pub fn second_is_lesser<'a>(a: &'a [u16], b: &'a [u16]) -> bool
    ensures { result ≡ precedes b.now a.now }
{
    let k = b.len();
    if a.len() != k {
        return second_by_length(a, b);
    }
    if k == 0 {
        return false;
    }
    let last = k - 1;
    if b[last] < a[last] {
        return second_by_length(a, &b[..last]);
    }
    second_by_length(&a[..last], b)
}
