// What the input of the census program asks for: a decimal size without leading zeros and a newline, nothing else. Other input, and a size outside
// 1..50, is refused 31. Empty input, no byte at all, asks for the summary.
#![tactic(auto)]

ghost use Rattle.std.specs.Prelude.{[], ◌∷◌};
ghost use Rattle.census_size.specs.Size.{NamedSizePromise, RequestPromise};

use refusals::Refusal;

// The size that a byte and the byte that ends it name; 0 where they name none.
fn one_digit(digit: u8, end: u8) -> u64
    ensures { NamedSizePromise (digit ∷ end ∷ []) result }
{
    if end != b'\n' {
        return 0;
    }
    if digit < b'1' {
        return 0;
    }
    if b'9' < digit {
        return 0;
    }
    (digit - b'0') as u64
}

// The same of two bytes and the byte that ends them. Without the second, they name the tens.
fn two_digits(first: u8, second: u8, end: u8) -> u64
    ensures { NamedSizePromise (first ∷ second ∷ end ∷ []) result }
{
    let tens = one_digit(first, end);
    if tens == 0 {
        return 0;
    }
    if second < b'0' {
        return 0;
    }
    if b'9' < second {
        return 0;
    }
    tens * 10 + (second - b'0') as u64
}

// The size that the input names, of one digit or two; 0 where it names none of these. A size of more digits is above 50 in any case.
fn named_size(input: &[u8]) -> u64
    ensures { NamedSizePromise input.now result }
{
    if input.len() == 2 {
        return one_digit(input[0], input[1]);
    }
    if input.len() == 3 {
        return two_digits(input[0], input[1], input[2]);
    }
    0
}

// What is to be printed: the summary of the small sizes, or the census of a size.
#[derive(Clone, Copy)]
pub enum Request {
    Summary,
    Census(u64),
}

// What the input asks for.
pub fn asked(input: &[u8]) -> Result<Request, Refusal>
    ensures { RequestPromise input.now result }
{
    if input.len() == 0 {
        return Ok(Request::Summary);
    }
    let size = named_size(input);
    let total = listing_ranking::count(size);
    match total {
        Ok(_) => Ok(Request::Census(size)),
        Err(refusal) => Err(refusal),
    }
}
