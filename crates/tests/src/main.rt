// The census program's input, case by case; the numbers of rooted and kept diagrams by size (counts.rt); and the share book in its lent form
// (lent_book.rt). Standard input holds inputs of the census, each with a semicolon after it. Each is printed with its semicolon, and then what the
// census prints. The file stdout was written from document 01, the listings of sizes 1, 2 and 4 that were handed over and the published counts, not
// from what the program prints.
#![tactic(auto)]

mod counts;
mod lent_book;

use std::io;
use std::io::Write;

fn case<W: Write>(stdout: &mut W, input: &[u8]) -> io::Result<()> {
    stdout.write_all(input)?;
    stdout.write_all(b";\n")?;
    census_text::census(stdout, input)
}

fn run<W: Write>(stdout: &mut W, inputs: &[u8]) -> io::Result<()> {
    for input in inputs.split_inclusive(|byte| *byte == b';') {
        case(stdout, input.strip_suffix(b";").unwrap_or(input))?;
    }
    Ok(())
}

fn main(rt: HostRuntime) -> io::Result<()> {
    let mut inputs = [0u8; 1024];
    let mut stdout = rt.stdout();
    let n = census_text::read_full(&mut rt.stdin(), &mut inputs)?;
    run(&mut stdout, &inputs[..n])?;
    counts::print_counts(&mut stdout)?;
    lent_book::run_sessions(&mut stdout)
}
