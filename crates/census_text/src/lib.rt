// The census of a size, as document 01 shows it ("Small sizes, by hand"): a header, a line for each diagram, and a last line with the numbers
// listed and kept. It goes to standard output, a part at a time (crate census_parts). Empty input prints the summary of the small sizes (crate
// census_summary), and other input that names no size of 1..50 `refused 31` (crate census_size). What is not proved here: that the input is read,
// and that the bytes handed to standard output arrive.
#![tactic(auto)]

ghost use Rattle.std.specs.Prelude.{◌≤◌, length, IfOk};
ghost use Rattle.lists.specs.Ranges.{OneTo};

use census_frame::put_refusal;
use census_parts::{begin, next_part};
use census_size::Request;
use census_summary::put_summary;
use std::io;
use std::io::{Read, Write};

// Writes the first bytes of out, up to a place; false where there are not so many.
fn flush<W: Write>(stdout: &mut W, out: &[u8], end: usize) -> io::Result<bool> {
    if out.len() < end {
        return Ok(false);
    }
    stdout.write_all(&out[0..end])?;
    Ok(true)
}

// Prints the census of a size, part after part. It stops where standard output closes.
fn print<W: Write>(stdout: &mut W, size: u64, out: &mut [u8]) -> io::Result<()>
    requires { OneTo 50 size × (65536 ≤ length out.old) }
{
    let mut progress = begin(size);
    while progress.stage != 2 {
        let part = next_part(progress, out);
        if !flush(stdout, out, part.bytes)? {
            return Ok(());
        }
        progress = part.progress;
    }
    Ok(())
}

// Prints the line of a refusal.
fn refuse<W: Write>(stdout: &mut W, number: u16, out: &mut [u8]) -> io::Result<()>
    requires { 65536 ≤ length out.old }
{
    let end = put_refusal(out, number);
    flush(stdout, out, end)?;
    Ok(())
}

// Prints the summary, a line a size.
fn summarise<W: Write>(stdout: &mut W, out: &mut [u8]) -> io::Result<()>
    requires { 65536 ≤ length out.old }
{
    let end = put_summary(out, b"\n");
    flush(stdout, out, end)?;
    Ok(())
}

// Prints what the input asks for.
pub fn census<W: Write>(stdout: &mut W, input: &[u8]) -> io::Result<()> {
    let mut out = [0u8; 65536];
    let request = census_size::asked(input);
    match request {
        Ok(Request::Summary) => summarise(stdout, &mut out),
        Ok(Request::Census(size)) => print(stdout, size, &mut out),
        Err(refusal) => refuse(stdout, refusal.number(), &mut out),
    }
}

// Reads until the list is full or the input ends, and returns how many bytes were read.
pub fn read_full<R: Read>(stdin: &mut R, list: &mut [u8]) -> io::Result<usize>
    ensures { IfOk result (λ n. n ≤ length list.old) }
{
    let mut done: usize = 0;
    // No `for`: each read tells how many bytes it brought.
    while done < list.len() {
        let n = stdin.read(&mut list[done..])?;
        if n == 0 {
            return Ok(done);
        }
        done += n;
    }
    Ok(done)
}

// The program: prints what standard input asks for. An input of more than three bytes names no size of 1..50, so that its first four tell enough.
// The first byte is read alone, because a read that fails is no empty input: it is an error.
pub fn run<R: Read, W: Write>(stdin: &mut R, stdout: &mut W) -> io::Result<()> {
    let mut first = [0u8; 1];
    if stdin.read(&mut first)? == 0 {
        return census(stdout, b"");
    }
    let mut rest = [0u8; 3];
    let n = read_full(stdin, &mut rest)?;
    let input = [first[0], rest[0], rest[1], rest[2]];
    census(stdout, &input[..n + 1])
}
