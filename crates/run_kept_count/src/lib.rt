// How many diagrams of a size are kept. A run lists all of them, in blocks with their keep marks, and the marks are counted: the time grows with
// the list, the memory does not. Refuses 31, a size outside 1..50.
#![tactic(auto)]

ghost use Rattle.std.specs.Prelude.{◌≡◌, ℕ, ◌≤◌};
ghost use Rattle.lists.specs.Ranges.{OneTo};
ghost use Rattle.run_answers.specs.Promises.{RunAt};
ghost use Rattle.census_rows.specs.Rows.{kept_among};
ghost use Rattle.census_definition.specs.Census.{kept_count};
ghost use Rattle.run_kept_count.specs.Promises.{BlockCounted, KeptCountPromise};

use census_rows::{ROWS, kept_of};
use diagrams::Diagram;
use listing_places::count_of;
use refusals::Refusal;
use run_answers::Run;
use run_beginning::{empty, listed};
use run_marks::mark_rows;
use run_rows::rows_of;

// How many of the first marks are those of kept diagrams.
fn kept_marks(marks: &[u8; ROWS], rows: usize) -> u64
    requires { rows ≤ 48 }
    ensures { result ≡ kept_among marks.now rows }
{
    let mut kept: u64 = 0;
    for i in 0..rows {
        kept += kept_of(marks[i]);
    }
    kept
}

// How many diagrams a block has, how many of them are kept, and the run after it.
#[derive(Drop)]
struct Block {
    rows: u64,
    kept: u64,
    run: Run,
}

// The next diagrams of a run, as many as a block holds or as are left.
fn count_block(run: Run) -> Block
    requires { (p : ℕ) × RunAt run.size p run }
    ensures { (p : ℕ) → RunAt run.size p run → BlockCounted run.size p result.rows result.kept result.run }
{
    let n = run.size as usize;
    let mut s0 = [0u16; Diagram::MAX_LISTED * ROWS];
    let mut s1 = [0u16; Diagram::MAX_LISTED * ROWS];
    let mut words = [0u16; (Diagram::MAX_LISTED + 1) * ROWS];
    let mut lengths = [0u16; ROWS];
    let mut marks = [0u8; ROWS];
    let reached = rows_of(run, ROWS, &mut s0, &mut s1, &mut words, &mut lengths);
    let rows = reached.rows;
    let next = reached.run;
    mark_rows(n, rows, &s0, &s1, &words, &lengths, &mut marks);
    Block {
        rows: rows as u64,
        kept: kept_marks(&marks, rows),
        run: next,
    }
}

// The number for a size that is listed.
pub fn kept_of_size(size: u64) -> u64
    requires { OneTo 50 size }
    ensures { result ≡ kept_count size }
{
    let total = count_of(size);
    let mut run = empty(size, 0);
    let mut given: u64 = 0;
    let mut kept: u64 = 0;
    // No `for`: each block tells how many diagrams it had.
    while given < total {
        let block = count_block(run);
        run = block.run;
        given += block.rows;
        kept += block.kept;
    }
    kept
}

// How many diagrams of a size are kept, or the refusal 31.
pub fn kept_count(size: u64) -> Result<u64, Refusal>
    ensures { KeptCountPromise size result }
{
    if listed(size) {
        return Ok(kept_of_size(size));
    }
    Err(Refusal::ListedSizeOutOfRange)
}
