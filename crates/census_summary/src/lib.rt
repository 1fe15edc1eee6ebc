// The summary that the census program prints on empty input: a line for each of the sizes 1 to 9, with how many diagrams it has and how many of
// them are kept. The numbers are counted at the time of the call.
#![tactic(auto)]

ghost use Rattle.std.specs.Prelude.{◌≡◌, ◌≤◌, length};
ghost use Rattle.lists.specs.Ranges.{OneTo};
ghost use Rattle.words_decimals.specs.Decimals.{BytesWritten};
ghost use Rattle.text_printing_pieces.specs.Pieces.{output, put_all};
ghost use Rattle.census_definition.specs.Census.{summary};
ghost use Rattle.census_summary.specs.Lines.{line_pieces};

use listing_places::count_of;
use run_kept_count::kept_of_size;
use text_printing_pieces::{put_byte, put_number, put_text};

// The line of a size, and the text behind it.
fn put_line(out: &mut [u8], place: usize, size: u64, behind: &[u8]) -> usize
    requires { OneTo 50 size }
    ensures { output out.new result ≡ put_all (line_pieces behind.now size) (output out.old place) }
{
    let count = count_of(size);
    let kept = kept_of_size(size);
    let first = put_number(out, place, size);
    let second = put_byte(out, first, b' ');
    let third = put_number(out, second, count);
    let fourth = put_byte(out, third, b' ');
    let last = put_number(out, fourth, kept);
    put_text(out, last, behind)
}

// The lines of the sizes 1 to 9 with a text behind each, such as a newline, written over the beginning of out. A line has at most 64 bytes.
pub fn put_summary(out: &mut [u8], behind: &[u8]) -> usize
    requires { (576 ≤ length out.old) × (length behind.now ≤ 2) }
    ensures { BytesWritten out.old 0 (summary behind.now) result out.new }
{
    let mut end: usize = 0;
    for size in 1..=9 {
        end = put_line(out, end, size, behind);
    }
    end
}
