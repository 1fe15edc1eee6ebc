// The answer to a cell of a sheet. Its word is counted along but spelled into no list, and nothing is labelled again: a word that can be read is
// the word of the diagram that it spells, so that its position is that diagram's.
#![tactic(auto)]

ghost use Rattle.std.specs.Prelude.{◌≡◌, ◌==◌, length};
ghost use Rattle.std.specs.List.{list_all};
ghost use Rattle.words_reading.specs.Read.{read};
ghost use Rattle.sheet.specs.Cells.{told, located, cell};

use diagrams::Diagram;
use listing_places::ranking::position_of;
use lists::to_index;
use refusals::Refusal;
use sheet::CellAnswer;
use words_reading_size::read_size;

// The numbers of a cell.
pub const CELL: usize = 52;

// Whether a list holds nothing but zeros.
fn is_blank(list: &[u16]) -> bool
    ensures { result ≡ list_all (λ x. x == 0) list.now }
{
    list.iter().all(|x| *x == 0)
}

// The position of the diagram that a word spells: the refusals of read word, then 31.
fn locate(word: &[u16]) -> Result<u64, Refusal>
    ensures { told result ≡ located (read word.now) }
{
    let size = read_size(word)?;
    if (Diagram::MAX_LISTED as u16) < size {
        return Err(Refusal::ListedSizeOutOfRange);
    }
    Ok(position_of(to_index(size), word))
}

// A cell's length is tested first, then its tail, then its word.
fn locate_cell(numbers: &[u16]) -> Result<u64, Refusal>
    requires { length numbers.now ≡ 52 }
    ensures { told result ≡ cell numbers.now }
{
    let items = to_index(numbers[0]);
    if CELL - 1 < items {
        return Err(Refusal::SheetShape);
    }
    let end = items + 1;
    if is_blank(&numbers[end..]) {
        return locate(&numbers[1..end]);
    }
    Err(Refusal::SheetShape)
}

// The answer to a cell, told in numbers.
pub fn answer_cell(numbers: &[u16]) -> CellAnswer
    requires { length numbers.now ≡ 52 }
    ensures { result ≡ cell numbers.now }
{
    match locate_cell(numbers) {
        Ok(position) => CellAnswer {
            refusal: 0,
            position,
        },
        Err(refusal) => CellAnswer {
            refusal: refusal.number(),
            position: 0,
        },
    }
}
