// The rows of a run as text, as a census has them: the next rows, at most as many as asked for, in a lent list of bytes. They are found in blocks
// with their keep marks. Refuses 34, a run that is neither fresh, nor at a diagram, nor finished; a finished run answers "no rows"; then 9,
// fewer bytes than the rows asked for can need.
#![tactic(auto)]

ghost use Rattle.std.specs.Prelude.{◌≡◌, ◌≢◌, ◌+◌, ◌-◌, ◌*◌, ◌≤◌, length};
ghost use Rattle.lists.specs.Ranges.{OneTo};
ghost use Rattle.listing.specs.Listing.{count};
ghost use Rattle.run_answers.specs.Promises.{RunAt};
ghost use Rattle.run_validity.specs.Valid.{ValidRun};
ghost use Rattle.census_definition.specs.Census.{row_bytes};
ghost use Rattle.census_blocks.specs.Blocks.{RowsText};
ghost use Rattle.run_text.specs.Promises.{RowsPromise};

use census_blocks::{Block, put_block};
use census_rows::ROWS;
use listing_places::count_of;
use listing_places::ranking::position_of;
use refusals::Refusal;
use run_answers::Run;
use run_blocks_answers::short;
use run_validity::valid;

// How many rows were written, how many bytes they have and how many of their diagrams are kept.
#[derive(Clone, Copy)]
pub struct TextRows {
    pub rows: u64,
    pub bytes: u64,
    pub kept: u64,
}

// What `rows` answers. The run is not inside the Result, because RowsPromise fixes it in a refusal too: the run that was lent.
#[derive(Drop)]
pub struct RowsDone {
    pub answer: Result<TextRows, Refusal>,
    pub run: Run,
}

// Bytes that are enough for a row of size n.
fn row_bytes(n: u64) -> usize
    requires { n ≤ 50 }
    ensures { result ≡ row_bytes n }
{
    9 * n as usize + 40
}

// How many diagrams a run has given.
fn given(run: Run) -> u64
    requires { ValidRun run × (run.stage ≢ 2) }
    ensures { RunAt run.size result run }
{
    if run.stage == 0 {
        return 0;
    }
    let length = run.length as usize;
    let items = run.items;
    position_of(run.size as usize, &items[..length])
}

// Writes the next rows of a run that has given p diagrams, a block at a time; there are so many, and out has room for them.
fn put_blocks(run: Run, p: u64, rows: u64, out: &mut [u8]) -> Block
    requires { RunAt run.size p run × (p + rows ≤ count run.size) × (rows * row_bytes run.size ≤ length out.old) }
    ensures { RowsText run.size p rows out.old result.bytes result.kept result.run out.new }
{
    let mut run = run;
    let mut bytes: usize = 0;
    let mut kept: u64 = 0;
    let mut done: u64 = 0;
    // No `for`: the last block may be shorter than the others, so that each block tells the step.
    while done < rows {
        let count = (rows - done).min(ROWS as u64);
        let block = put_block(run, p + done, count as usize, &mut out[bytes..]);
        run = block.run;
        bytes += block.bytes;
        kept += block.kept;
        done += count;
    }
    Block { run, bytes, kept }
}

// The next rows of a run, at most as many as asked for, written over the beginning of out.
pub fn rows(run: Run, asked: u64, out: &mut [u8]) -> RowsDone
    ensures { RowsPromise run asked out.old result.run out.new result.answer }
{
    if !valid(run) {
        return RowsDone {
            answer: Err(Refusal::RunNotValid),
            run,
        };
    }
    if run.stage == 2 {
        return RowsDone {
            answer: Ok(TextRows {
                rows: 0,
                bytes: 0,
                kept: 0,
            }),
            run,
        };
    }
    if short(out.len(), asked as usize, row_bytes(run.size)) {
        return RowsDone {
            answer: Err(Refusal::ListShort),
            run,
        };
    }
    let p = given(run);
    let rows = asked.min(count_of(run.size) - p);
    let block = put_blocks(run, p, rows, out);
    let next = block.run;
    RowsDone {
        answer: Ok(TextRows {
            rows,
            bytes: block.bytes as u64,
            kept: block.kept,
        }),
        run: next,
    }
}
