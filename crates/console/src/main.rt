// Reads commands from standard input, one a line, and writes one line for each to standard output, so that every operation can be tried
// from a shell. Words are parted by one space. A list is decimal numbers up to 65,535, parted by commas, at most 2,048 of them, and `-` is
// the empty list; other numbers fit 64 bits. ROOMS, in brackets, are lengths of the output lists, which are long enough where they are left out.
// A line of any other form, or of more than 65,536 bytes, prints `error` and alters nothing. Every refusal prints `refused N`. A line that begins
// with `#` is printed as it stands.
//
//   check S0 S1 ROOT                               ok
//   reached MARKS                                  yes or no: every mark is 1; a number above 255 is no mark
//   relabel S0 S1 ROOT [R0 R1 RW]                  S0 S1 WORD
//   compare rooted S0 S1 ROOT S0 S1 ROOT           same or different; refused N side K
//   compare unrooted S0 S1 ROOT S0 S1 ROOT         the same
//   invariants S0 S1 ROOT                          E2 E3 C T LEVEL
//   symmetries S0 S1 ROOT                          their number
//   kept S0 S1 ROOT                                yes or no
//   read WORD [R0 R1]                              S0 S1
//   sheet LIST [RA RB]                             REFUSALS POSITIONS, the pairs of its cells of 52 numbers: a word's length, its items, zeros
//   lesser A B                                     1 A or 2 B, the list that is handed back
//   letters WORD [ROOM]                            the word's letters, `-` for none
//   count N                                        the number of diagrams of that size
//   kept-count N                                   how many of these are kept; its time grows with their number
//   summary                                        SIZE COUNT KEPT of the sizes 1 to 9, with a comma and a space between any two sizes
//   at N P [R0 R1 RW]                              S0 S1 WORD
//   position S0 S1 ROOT                            its number
//   row N P                                        the line of that position in the census of that size
//   walk N [ROOM]                                  how many numbers, and the numbers
//   begin N                                        ok
//   begin-at N P                                   ok
//   step [R0 R1 RW]                                S0 S1 WORD or end; a step before any accepted begin is refused 34
//   list ROWS [R0 R1 RW RL]                        how many diagrams of the run, at most ROWS; their black lists, white lists, words and the
//                                                  words' lengths, each one after another; lists of 2,048 places where the rooms are left out
//   marked ROWS [R0 R1 RW RL RM]                   the same, and the keep marks
//   run                                            SIZE STAGE LENGTH ITEMS, a list of 51; all zeros before any accepted begin
//   set run SIZE STAGE LENGTH ITEMS                ok; writes the run, with zeros after at most 51 items; each field is 16 bits wide
//   upto N                                         ok; begins a run through the sizes 1 to N, kept beside the plain one
//   next [R0 R1 RW]                                SIZE VISITS S0 S1 WORD, its next diagram, or end; refused 34 before any accepted upto
//   upto-visits V                                  ok; writes the visit number of that run
//   open N K                                       ok
//   claim TICK SHARE LENGTH                        ticket T
//   take TICK TICKET [R0 R1 RW]                    share J position P S0 S1 WORD
//   commit TICK TICKET P                           ok
//   commits TICK TICKET FIRST LAST                 ok; the positions FIRST to LAST in one call
//   release TICK TICKET                            ok
//   report                                         N complete or N open
//   book                                           SIZE K LATEST ISSUED NEXT TICKET EXPIRY, three lists of 32; all zeros before any open
//   set size V, shares V, latest V, issued V       ok; writes a field of the book
//   set next J V, ticket J V, expiry J V           ok; writes share J's, 1 to 32
#![tactic(auto)]

mod commands;

ghost use Rattle.text_printing.specs.Printing.{output};
ghost use Rattle.console_answers.specs.Answers.{AnswerLinePut};

use commands::on_line;
use console_lines::output::written;
use console_lines::{next_line, no_lines};
use std::io;
use std::io::{Read, Write};
use text_printing::put_byte;

// More than the longest line, so that a line that is still incomplete leaves room to read on.
const INPUT: usize = 131072;
// More than ENOUGH bytes (crate console_lines) and the longest answer, which is that of a line that is its own.
const OUTPUT: usize = 131072;

// The answer to a line, and a newline; nothing where there is no line.
fn answer(
    line: &[u8],
    none: bool,
    run: &mut [u16; 54],
    upto: &mut [u16; 54],
    visits: &mut u64,
    book: &mut [u64; 100],
    out: &mut [u8],
    place: usize,
) -> usize
    ensures { AnswerLinePut none line.now (output out.old place) (output out.new result) }
{
    if none {
        return place;
    }
    let end = on_line(line, run, upto, visits, book, out, place);
    put_byte(out, end, b'\n')
}

// Reads and answers to the end of the input. A proved loop has to end, and nothing says that the input does: so it has a number of turns that no
// session uses up.
fn session<R: Read, W: Write>(
    stdin: &mut R,
    stdout: &mut W,
    input: &mut [u8],
    run: &mut [u16; 54],
    upto: &mut [u16; 54],
    visits: &mut u64,
    book: &mut [u64; 100],
    out: &mut [u8],
) -> io::Result<()> {
    let mut lines = no_lines();
    let mut place: usize = 0;
    for _ in 0..u64::MAX {
        lines = next_line(stdin, input, lines)?;
        let start = lines.start;
        let end = lines.end;
        let waits = lines.waits;
        let ended = lines.ended;
        let next = answer(
            &input[start..end],
            waits,
            run,
            upto,
            visits,
            book,
            out,
            place,
        );
        place = written(stdout, out, next, waits || ended)?;
        if ended {
            return Ok(());
        }
    }
    Ok(())
}

// The runs are of no size and no bound at first, so that a step refuses them, and the book is all zeros.
fn main(rt: HostRuntime) -> io::Result<()> {
    session(
        &mut rt.stdin(),
        &mut rt.stdout(),
        &mut [0u8; INPUT],
        &mut [0u16; 54],
        &mut [0u16; 54],
        &mut 0u64,
        &mut [0u64; 100],
        &mut [0u8; OUTPUT],
    )
}
