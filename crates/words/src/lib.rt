// Words: what a word spells (specs/Word), its event letters, and its dictionary order.
#![tactic(auto)]

ghost use Rattle.std.specs.Prelude.{◌≡◌, ◌∷◌, [], ◌<◌};
ghost use Rattle.words.specs.Letters.{first_letter, LettersPromise};

use refusals::Refusal;
pub use words_decimals::put_decimal;
use words_letters::{events_fit, put_events};
pub use words_order::{lesser, precedes};

// U or T.
fn first_letter(x: u16) -> u8
    requires { x < 2 }
    ensures { first_letter x ≡ result ∷ [] }
{
    if x == 0 { b'U' } else { b'T' }
}

// The letters of a word from its first item on, which has one. Nothing is written before it is known that all of them fit.
fn put_letters(out: &mut [u8], x: u16, items: &[u16]) -> Result<usize, Refusal>
    requires { x < 2 }
    ensures { LettersPromise (x ∷ items.now) out.old result out.new }
{
    if out.len() == 0 {
        return Err(Refusal::ListShort);
    }
    if !events_fit(items, out.len() - 1) {
        return Err(Refusal::ListShort);
    }
    out[0] = first_letter(x);
    Ok(put_events(out, 1, items))
}

// Writes the letters of a word at the beginning of out and answers how many they are. Refuses 22 a first item that is not 0 or 1,
// then 9 an out that is short. The empty word has no letters.
pub fn letters(word: &[u16], out: &mut [u8]) -> Result<usize, Refusal>
    ensures { LettersPromise word.now out.old result out.new }
{
    if word.len() == 0 {
        return Ok(0);
    }
    let x = word[0];
    if 1 < x {
        return Err(Refusal::FirstItem);
    }
    put_letters(out, x, &word[1..])
}
