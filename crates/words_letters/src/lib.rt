// The event letters of a word's items after the first, as ASCII bytes: whether they fit, and written at a place.
#![tactic(auto)]

ghost use Rattle.std.specs.Prelude.{◌≡◌, ◌∷◌, [], ◌+◌, ◌≤◌, ◌<◌, leb, length};
ghost use Rattle.words_decimals.specs.Decimals.{BytesWritten};
ghost use Rattle.words_letters.specs.EventLetters.{event_letters, events_letters};

use words_decimals::{decimal_length, put_decimal};

// How many letters an event has.
fn event_length(x: u16) -> usize
    ensures { result ≡ length (event_letters x) }
{
    if x < 3 {
        return 1;
    }
    1 + decimal_length((x - 3) as u64)
}

// W, F or B.
fn event_letter(x: u16) -> u8
    requires { x < 3 }
    ensures { event_letters x ≡ result ∷ [] }
{
    match x {
        0 => b'W',
        1 => b'F',
        _ => b'B',
    }
}

// Whether the letters of all the events fit into room. The room is counted down: the number of letters may exceed a usize.
pub fn events_fit(items: &[u16], room: usize) -> bool
    ensures { result ≡ leb (length (events_letters items.now)) room }
{
    let mut left = room;
    for &x in items {
        let n = event_length(x);
        if left < n {
            return false;
        }
        left -= n;
    }
    true
}

// Writes the letters of an event at a place and returns the place after them.
fn put_event(out: &mut [u8], place: usize, x: u16) -> usize
    requires { place + length (event_letters x) ≤ length out.old }
    ensures { BytesWritten out.old place (event_letters x) result out.new }
{
    if x < 3 {
        out[place] = event_letter(x);
        return place + 1;
    }
    out[place] = b'J';
    put_decimal(out, place + 1, (x - 3) as u64)
}

// The same for events one after another.
pub fn put_events(out: &mut [u8], place: usize, items: &[u16]) -> usize
    requires { place + length (events_letters items.now) ≤ length out.old }
    ensures { BytesWritten out.old place (events_letters items.now) result out.new }
{
    let mut next = place;
    for &x in items {
        next = put_event(out, next, x);
    }
    next
}
