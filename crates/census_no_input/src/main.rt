// The census program once more, so that the gate runs it on empty input too.
#![tactic(auto)]

use std::io;

fn main(rt: HostRuntime) -> io::Result<()> {
    census_text::run(&mut rt.stdin(), &mut rt.stdout())
}
