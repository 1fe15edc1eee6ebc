// Numbers and lists, read from the bytes of a word.
//
// A number is decimal digits, at least one, and fits 64 bits. A list is numbers up to 65,535 parted by commas; `-` is the empty list.
// Whatever else is read is no number and no list.
#![tactic(auto)]

ghost use Rattle.std.specs.Prelude.{◌≡◌, ◌≢◌, ℕ, ◌<◌, ◌≤◌, length, slice_index, Some};

// The place of the first such byte from start on and before end, or end where there is none.
pub fn find(text: &[u8], start: usize, end: usize, byte: u8) -> usize
    requires { (start ≤ end) × (end ≤ length text.now) }
    ensures begins { start ≤ result }
    ensures ends { result ≤ end }
    ensures before { (k : ℕ) → start ≤ k → k < result → slice_index text.now k ≢ byte }
    ensures found { result < end → slice_index text.now result ≡ byte }
{
    for i in start..end {
        if text[i] == byte {
            return i;
        }
    }
    end
}

pub fn is(word: &[u8], name: &[u8]) -> bool {
    word == name
}

// A number with one digit more.
fn with_digit(value: u64, byte: u8) -> Option<u64> {
    if !byte.is_ascii_digit() {
        return None;
    }
    value.checked_mul(10)?.checked_add((byte - b'0') as u64)
}

// The number that a word is.
pub fn number(word: &[u8]) -> Option<u64> {
    if word.len() == 0 {
        return None;
    }
    let mut value: u64 = 0;
    for &byte in word {
        value = with_digit(value, byte)?;
    }
    Some(value)
}

// The list that a word is, written at the beginning of out; its length. One that is longer than out is none.
pub fn list(word: &[u8], out: &mut [u16]) -> Option<usize>
    ensures { (n : ℕ) → result ≡ Some n → n ≤ length out.new }
{
    if is(word, b"-") {
        return Some(0);
    }
    let mut length: usize = 0;
    for part in word.split(|byte| *byte == b',') {
        if out.len() <= length {
            return None;
        }
        out[length] = u16::try_from(number(part)?).ok()?;
        length += 1;
    }
    Some(length)
}
