// The text of a census a part at a time, so that the memory needed does not grow with the size: the header, the rows in parts of at most 128, the
// last line. Put one after another, the parts are the text of the census (specs/Parts.antt).
#![tactic(auto)]

ghost use Rattle.std.specs.Prelude.{◌≡◌, ◌≢◌, ◌≤◌, ◌<◌, length, take};
ghost use Rattle.lists.specs.Ranges.{OneTo};
ghost use Rattle.listing.specs.Listing.{count};
ghost use Rattle.census_parts.specs.Parts.{begun, InProgress, PartGiven};

use census_frame::{put_header, put_totals};
use listing_places::count_of;
use run_answers::Run;
use run_beginning::empty;
use run_text::TextRows;

// How far a census has come: nothing is printed yet (stage 0), the header and so many rows (1), or all of it (2); how many of these rows' diagrams
// are kept, and the run after them.
#[derive(Clone, Copy)]
pub struct Progress {
    pub size: u64,
    pub stage: u64,
    pub listed: u64,
    pub kept: u64,
    pub run: Run,
}

// The progress after a part, and how many bytes the part has.
#[derive(Drop)]
pub struct Part {
    pub progress: Progress,
    pub bytes: usize,
}

// Before the first part.
pub fn begin(size: u64) -> Progress
    ensures { result ≡ begun size }
{
    Progress {
        size,
        stage: 0,
        listed: 0,
        kept: 0,
        run: empty(size, 0),
    }
}

fn header_part(progress: Progress, out: &mut [u8]) -> Part
    requires { InProgress progress × (progress.stage ≡ 0) × (65536 ≤ length out.old) }
    ensures { PartGiven progress result.progress result.bytes out.new }
{
    let mut next = progress;
    next.stage = 1;
    Part {
        progress: next,
        bytes: put_header(out, progress.size),
    }
}

// There are rows left, and room for 128 of them.
fn rows_part(progress: Progress, out: &mut [u8]) -> Part
    requires { InProgress progress × (progress.stage ≡ 1) × (progress.listed < count progress.size) × (65536 ≤ length out.old) }
    ensures { PartGiven progress result.progress result.bytes out.new }
{
    let run = progress.run;
    let done = run_text::rows(run, 128, out);
    let answer = done.answer;
    let next = done.run;
    match answer {
        Ok(TextRows { rows, bytes, kept }) => Part {
            progress: Progress {
                size: progress.size,
                stage: 1,
                listed: progress.listed + rows,
                kept: progress.kept + kept,
                run: next,
            },
            bytes: bytes as usize,
        },
        Err(_) => Part { progress, bytes: 0 },
    }
}

fn last_part(progress: Progress, out: &mut [u8]) -> Part
    requires { InProgress progress × (progress.stage ≡ 1) × (progress.listed ≡ count progress.size) × (65536 ≤ length out.old) }
    ensures { PartGiven progress result.progress result.bytes out.new }
{
    let mut next = progress;
    next.stage = 2;
    Part {
        progress: next,
        bytes: put_totals(out, progress.listed, progress.kept),
    }
}

// The next part of a census that is not all printed, written over the beginning of out.
pub fn next_part(progress: Progress, out: &mut [u8]) -> Part
    requires { InProgress progress × (progress.stage ≢ 2) × (65536 ≤ length out.old) }
    ensures { PartGiven progress result.progress result.bytes out.new }
{
    if progress.stage == 0 {
        return header_part(progress, out);
    }
    if progress.listed < count_of(progress.size) {
        return rows_part(progress, out);
    }
    last_part(progress, out)
}
