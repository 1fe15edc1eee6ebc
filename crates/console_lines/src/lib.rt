// The lines of standard input, one after another, in a buffer of more than LONGEST bytes. A line that is longer than LONGEST is given as an empty
// one, and what follows of it is passed over. Module output writes the answers out.
#![tactic(auto)]

pub mod output;

ghost use Rattle.std.specs.Prelude.{◌≤◌, ◌<◌, length, IfOk};
ghost use Rattle.console_lines.specs.Lines.{Within};

use std::io;
use std::io::Read;
use text_parsing::find;

// The longest line that is read, without its newline.
pub const LONGEST: usize = 65536;

// The line found last is the bytes of the input from start up to end; the next one begins at next, and the bytes that were read end at have.
// No newline is among those from next on, before searched.
#[derive(Drop)]
pub struct Lines {
    pub start: usize,
    pub end: usize,
    pub next: usize,
    pub searched: usize,
    pub have: usize,
    // whether the bytes from next on belong to a line that was too long
    pub passes: bool,
    // whether no line was found, since none is complete
    pub waits: bool,
    // whether the input has ended, so that the line found, if any, was the last
    pub ended: bool,
}

// Before the first line.
pub fn no_lines() -> Lines
    ensures { Within result 0 }
{
    Lines {
        start: 0,
        end: 0,
        next: 0,
        searched: 0,
        have: 0,
        passes: false,
        waits: true,
        ended: false,
    }
}

// Reads once, after the bytes that are there, and returns how many there are then.
fn read_after<R: Read>(stdin: &mut R, input: &mut [u8], have: usize) -> io::Result<usize>
    requires { have ≤ length input.old }
    ensures { IfOk result (λ n. (have ≤ n) × (n ≤ length input.old)) }
{
    let got = stdin.read(&mut input[have..])?;
    Ok(have + got)
}

// Moves the bytes from `from` up to `have` to the front, and returns how many they are.
fn move_to_front(input: &mut [u8], from: usize, have: usize) -> usize
    requires { (from ≤ have) × (have ≤ length input.old) }
    ensures { result ≤ have }
{
    input.copy_within(from..have, 0);
    have - from
}

// The bytes that are left at the end of the input are a line, if there are any.
fn last_line(rest: usize) -> Lines
    ensures { Within result rest }
{
    Lines {
        start: 0,
        end: rest,
        next: rest,
        searched: rest,
        have: rest,
        passes: false,
        waits: rest == 0,
        ended: true,
    }
}

// No line is found yet, and the next one begins at `next`.
fn unfound(next: usize, searched: usize, have: usize, passes: bool) -> Lines
    requires { (next ≤ searched) × (searched ≤ have) }
    ensures { Within result have }
{
    Lines {
        start: 0,
        end: 0,
        next,
        searched,
        have,
        passes,
        waits: true,
        ended: false,
    }
}

// Passes over the bytes that were read up to the newline of a line that was too long, or over all of them.
fn pass_over(input: &[u8], have: usize) -> Lines
    requires { have ≤ length input.now }
    ensures { Within result (length input.now) }
{
    let end = find(input, 0, have, b'\n');
    if end == have {
        return unfound(have, have, have, true);
    }
    unfound(end + 1, end + 1, have, false)
}

// Reads once, where no line is complete.
fn read_more<R: Read>(stdin: &mut R, input: &mut [u8], lines: Lines) -> io::Result<Lines>
    requires { Within lines (length input.old) }
    ensures { IfOk result (λ l. Within l (length input.old)) }
{
    let rest = move_to_front(input, lines.next, lines.have);
    let have = read_after(stdin, input, rest)?;
    if have == rest {
        return Ok(last_line(rest));
    }
    if lines.passes {
        return Ok(pass_over(input, have));
    }
    Ok(unfound(0, rest, have, false))
}

// The place where the line from start to end is taken to begin, its end where it is too long.
fn begin(start: usize, end: usize) -> usize
    requires { start ≤ end }
    ensures { result ≤ end }
{
    if LONGEST < end - start {
        return end;
    }
    start
}

// A line that is complete.
fn complete(start: usize, end: usize, have: usize) -> Lines
    requires { (start ≤ end) × (end < have) }
    ensures { Within result have }
{
    Lines {
        start: begin(start, end),
        end,
        next: end + 1,
        searched: end + 1,
        have,
        passes: false,
        waits: false,
        ended: false,
    }
}

// A line that is not, up to the bytes that were read. One that is too long already is found as an empty one.
fn incomplete(start: usize, have: usize, passes: bool) -> Lines
    requires { start ≤ have }
    ensures { Within result have }
{
    if have - start <= LONGEST {
        return unfound(start, have, have, passes);
    }
    Lines {
        start: have,
        end: have,
        next: have,
        searched: have,
        have,
        passes: true,
        waits: false,
        ended: false,
    }
}

// Looks for the next line among the bytes that were read.
fn find_line(input: &[u8], lines: Lines) -> Lines
    requires { Within lines (length input.now) }
    ensures { Within result (length input.now) }
{
    let have = lines.have;
    let end = find(input, lines.searched, have, b'\n');
    if end == have {
        return incomplete(lines.next, have, lines.passes);
    }
    complete(lines.next, end, have)
}

// The next line. Where none was complete it reads once, so that what was answered so far is to be written before.
pub fn next_line<R: Read>(stdin: &mut R, input: &mut [u8], lines: Lines) -> io::Result<Lines>
    requires { Within lines (length input.old) }
    ensures { IfOk result (λ l. Within l (length input.old)) }
{
    if !lines.waits {
        return Ok(find_line(input, lines));
    }
    let more = read_more(stdin, input, lines)?;
    if more.ended {
        return Ok(more);
    }
    Ok(find_line(input, more))
}
