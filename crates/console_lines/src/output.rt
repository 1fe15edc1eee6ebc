// The answers to the lines, gathered in a buffer and written to standard output.
use std::io;
use std::io::Write;

// Answers are written out once they are so many bytes.
pub const ENOUGH: usize = 32768;

// Writes the answers so far, where they are many or no line is at hand, and returns the place for the next one.
pub fn written<W: Write>(stdout: &mut W, out: &[u8], place: usize, now: bool) -> io::Result<usize> {
    if place <= ENOUGH && !now {
        return Ok(place);
    }
    if out.len() < place {
        return Ok(0);
    }
    stdout.write_all(&out[0..place])?;
    Ok(0)
}
