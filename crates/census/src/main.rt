// The census program: what standard input asks for goes to standard output (crate census_text).
#![tactic(auto)]

use std::io;

fn main(rt: HostRuntime) -> io::Result<()> {
    census_text::run(&mut rt.stdin(), &mut rt.stdout())
}
