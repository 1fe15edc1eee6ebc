// One row of a block: the diagram of a word, the word and its length, written behind the rows before it.
#![tactic(auto)]

ghost use Rattle.run_row.specs.Row.{RowRoom, RowBegins, RowWritten};

use lists::fill_from;

// Writes a diagram of n edges, its word and the word's length behind the rows before it.
pub fn row(
    black: &[u16],
    white: &[u16],
    n: usize,
    word: &[u16],
    edge: usize,
    place: usize,
    i: usize,
    s0: &mut [u16],
    s1: &mut [u16],
    words: &mut [u16],
    lengths: &mut [u16],
)
    requires { RowRoom n word.now edge place i s0.old s1.old words.old lengths.old × RowBegins n word.now black.now white.now }
    ensures { RowWritten word.now edge place i s0.old s1.old words.old lengths.old
        s0.new s1.new words.new lengths.new }
{
    fill_from(s0, edge, &black[..n]);
    fill_from(s1, edge, &white[..n]);
    fill_from(words, place, word);
    lengths[i] = word.len() as u16;
}
