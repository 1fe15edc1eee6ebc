// Numbers in decimal, as ASCII bytes.
#![tactic(auto)]

ghost use Rattle.std.specs.Prelude.{◌≡◌, length};
ghost use Rattle.words_decimals.specs.Decimals.{decimal, BytesPut};

// How many digits m has.
pub fn decimal_length(m: u64) -> usize
    ensures { result ≡ length (decimal m) }
{
    let mut n: usize = 1;
    let mut x = m;
    while 10 <= x {
        x /= 10;
        n += 1;
    }
    n
}

// Writes m in decimal at a place of out and returns the place after it. Where it does not fit, it writes nothing and returns
// the place itself.
pub fn put_decimal(out: &mut [u8], place: usize, m: u64) -> usize
    ensures { BytesPut out.old place (decimal m) result out.new }
{
    let n = decimal_length(m);
    if out.len() < place {
        return place;
    }
    if out.len() - place < n {
        return place;
    }
    let mut end = place + n;
    let mut x = m;
    while 10 <= x {
        end -= 1;
        out[end] = 48 + (x % 10) as u8;
        x /= 10;
    }
    out[place] = 48 + x as u8;
    place + n
}
