// Dictionary order of words: which of two comes first.
#![tactic(auto)]

ghost use Rattle.std.specs.Prelude.{◌≡◌, cond};
ghost use Rattle.words_order.specs.Order.{precedes, lesser};

// Whether a comes before b in dictionary order.
pub fn precedes(a: &[u16], b: &[u16]) -> bool
    ensures { result ≡ precedes a.now b.now }
{
    // `a < b` takes half as long again on words that differ late, and `a.cmp(&b)` twice as long on those that differ at once
    for (i, &y) in b.iter().enumerate() {
        if a.len() <= i {
            return true;
        }
        let x = a[i];
        if x != y {
            return x < y;
        }
    }
    false
}

// The smaller of two lent lists, itself handed back and not a copy; on equality the first.
pub fn lesser<'a>(a: &'a [u16], b: &'a [u16]) -> &'a [u16]
    ensures which { result ≡ cond (precedes b.now a.now) b.entry a.entry }
    ensures items { result.now ≡ lesser a.now b.now }
{
    if precedes(b, a) {
        return b;
    }
    a
}
