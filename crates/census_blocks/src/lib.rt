// The rows of a block of a run, as text: its diagrams and their keep marks are found as the listing in blocks finds them, and then written.
#![tactic(auto)]

ghost use Rattle.std.specs.Prelude.{◌+◌, ◌*◌, ◌≤◌, length};
ghost use Rattle.listing.specs.Listing.{count};
ghost use Rattle.run_answers.specs.Promises.{RunAt};
ghost use Rattle.census_definition.specs.Census.{row_bytes};
ghost use Rattle.census_blocks.specs.Blocks.{RowsText};

use census_rows::{ROWS, put_rows};
use diagrams::Diagram;
use run_answers::Run;
use run_marks::mark_rows;
use run_rows::rows_of;

// The run after a block, how many bytes its text has, and how many of its diagrams are kept.
#[derive(Drop)]
pub struct Block {
    pub run: Run,
    pub bytes: usize,
    pub kept: u64,
}

// Writes the next rows of a run that has given p diagrams; there are so many, and out has room for them.
pub fn put_block(run: Run, p: u64, rows: usize, out: &mut [u8]) -> Block
    requires { RunAt run.size p run × (rows ≤ 48) × (p + rows ≤ count run.size) × (rows * row_bytes run.size ≤ length out.old) }
    ensures { RowsText run.size p rows out.old result.bytes result.kept result.run out.new }
{
    let n = run.size as usize;
    let mut s0 = [0u16; Diagram::MAX_LISTED * ROWS];
    let mut s1 = [0u16; Diagram::MAX_LISTED * ROWS];
    let mut words = [0u16; (Diagram::MAX_LISTED + 1) * ROWS];
    let mut lengths = [0u16; ROWS];
    let mut marks = [0u8; ROWS];
    let reached = rows_of(run, rows, &mut s0, &mut s1, &mut words, &mut lengths);
    mark_rows(n, reached.rows, &s0, &s1, &words, &lengths, &mut marks);
    let page = put_rows(out, p, n, reached.rows, &s0, &s1, &words, &lengths, &marks);
    let next = reached.run;
    Block {
        run: next,
        bytes: page.end,
        kept: page.kept,
    }
}
