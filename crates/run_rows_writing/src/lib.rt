// The writing of a block's rows: the next diagrams of a run, as many as are asked for, one after another, as that many steps would give them.
#![tactic(auto)]

ghost use Rattle.std.specs.Prelude.{◌≡◌, ℕ, ◌≤◌, length};
ghost use Rattle.words_respelling.specs.SpelledSoFar.{ScratchLengths};
ghost use Rattle.listing_successor.specs.Successor.{padded_word};
ghost use Rattle.run_answers.specs.Promises.{RunAt};
ghost use Rattle.run_rows_writing.specs.Promises.{run_of, ShortRows, RowsGiven};

use lists::fill;
use run_advance::{advance, draw_word};
use run_answers::Run;
use run_row::row;

// How many rows were written, and the run after them.
#[derive(Drop)]
pub struct Reached {
    pub rows: usize,
    pub run: Run,
}

// A word in the first places of 51, with zeros after it.
fn padded(word: &[u16]) -> [u16; 51]
    requires { length word.now ≤ 51 }
    ensures { result ≡ padded_word word.now }
{
    let mut items = [0u16; 51];
    fill(&mut items, word);
    items
}

// The rows so far, and the run with these fields.
fn arrived(rows: usize, size: u64, stage: u64, length: usize, items: [u16; 51]) -> Reached
    ensures { (result.rows ≡ rows) × (result.run ≡ run_of size stage length items) }
{
    Reached {
        rows,
        run: Run {
            size,
            stage,
            length: length as u64,
            items,
        },
    }
}

// The rows of a run that is not finished, into lists that are long enough. The word is changed in place, and its diagram with it.
pub fn write_rows(
    run: Run,
    rows: usize,
    stack: &mut [u16; 64],
    popped: &mut [u16; 64],
    d0: &mut [u16; 64],
    d1: &mut [u16; 64],
    s0: &mut [u16],
    s1: &mut [u16],
    words: &mut [u16],
    lengths: &mut [u16],
) -> Reached
    requires by_index { (p : ℕ) × RunAt run.size p run × (¬ ShortRows run.size rows s0.old s1.old words.old lengths.old) }
    requires scratch_lengths { ScratchLengths stack.old popped.old d0.old d1.old }
    ensures { RowsGiven run rows result.rows result.run s0.old s1.old words.old lengths.old
        s0.new s1.new words.new lengths.new }
{
    let n = run.size as usize;
    let size = run.size as u16;
    let mut stage = run.stage;
    let mut items = run.items;
    let mut l = run.length as usize;
    draw_word(&items[..l], stack, popped, d0, d1);
    let mut edge: usize = 0;
    let mut place: usize = 0;
    for i in 0..rows {
        l = advance(&mut items, l, size, stack, popped, d0, d1);
        if l == 0 {
            return arrived(i, run.size, 2, 0, [0u16; 51]);
        }
        row(
            d0,
            d1,
            n,
            &items[..l],
            edge,
            place,
            i,
            s0,
            s1,
            words,
            lengths,
        );
        stage = 1;
        edge += n;
        place += l;
    }
    arrived(rows, run.size, stage, l, padded(&items[..l]))
}
