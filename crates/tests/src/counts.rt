// Kept totals: a line a size with the size, how many diagrams a run gives before it answers "end", and how many of these are kept.
// The expected lines are the published counts of rooted diagrams and of classes without a root.
ghost use Rattle.std.specs.Prelude.{◌≤◌};

use run_steps::Run;
use std::io;
use std::io::Write;

// The sizes are 1 to this one.
const LAST: u64 = 22;

// More diagrams than any of these sizes has: a run that gives so many is left there.
const MANY: u64 = 1000000;

// 1 where the diagram with root 1 is kept, 0 where it is not.
fn kept_of(s0: &[u16], s1: &[u16]) -> u64
    ensures { result ≤ 1 }
{
    u64::from(labelling_operations::kept(s0, s1, 1).unwrap_or(false))
}

// How many diagrams a run has given, and how many of them are kept.
#[derive(Drop)]
struct Counts {
    rooted: u64,
    kept: u64,
}

// The numbers at the end of a run. The lists have as many places as a diagram of the run's size has edges.
fn counted(run: Run, s0: &mut [u16], s1: &mut [u16], word: &mut [u16]) -> Counts {
    let mut now = run;
    let mut kept: u64 = 0;
    for rooted in 0..MANY {
        let step = run_steps::step(now, s0, s1, word);
        let Ok(Some(_)) = step.answer else {
            return Counts { rooted, kept };
        };
        now = step.run;
        kept += kept_of(s0, s1);
    }
    Counts { rooted: MANY, kept }
}

fn print_line<W: Write>(stdout: &mut W, size: u64, counts: Counts) -> io::Result<()> {
    let rooted = counts.rooted;
    let kept = counts.kept;
    writeln!(stdout, "{size} {rooted} {kept}")
}

fn print_size<W: Write>(stdout: &mut W, size: u64) -> io::Result<()>
    requires { size ≤ 22 }
{
    let mut s0 = [0u16; 22];
    let mut s1 = [0u16; 22];
    let mut word = [0u16; 23];
    let n = size as usize;
    let begun = run_steps::begin(size);
    let run = begun.run;
    let counts = counted(run, &mut s0[0..n], &mut s1[0..n], &mut word);
    print_line(stdout, size, counts)
}

// All sizes up to LAST.
pub fn print_counts<W: Write>(stdout: &mut W) -> io::Result<()> {
    for size in 1..=LAST {
        print_size(stdout, size)?;
    }
    Ok(())
}
