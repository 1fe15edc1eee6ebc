// The positions of the words of a sheet, in one call.
#![tactic(auto)]

ghost use Rattle.std.specs.Prelude.{◌≡◌, length};
ghost use Rattle.lists.specs.Overwriting.{overwrite};
ghost use Rattle.sheet.specs.Cells as cells;
ghost use Rattle.sheet.specs.Promises.{Divided, ShortForCells, SheetPromise};

use refusals::Refusal;
use sheet_cell::{CELL, answer_cell};

// Answers every cell in its place of lists that are long enough.
fn answer_cells(sheet: &[u16], refusals: &mut [u16], positions: &mut [u64])
    requires { Divided sheet.now × (¬ ShortForCells sheet.now refusals.old positions.old) }
    ensures { (refusals.new ≡ overwrite (cells.refusals sheet.now) refusals.old)
        × (positions.new ≡ overwrite (cells.positions sheet.now) positions.old) }
{
    for i in 0..sheet.len() / CELL {
        let start = i * CELL;
        let answer = answer_cell(&sheet[start..start + CELL]);
        refusals[i] = answer.refusal;
        positions[i] = answer.position;
    }
}

// The refusal number, 0 if none, and the position, 0 if refused, of each cell's word, in its place of the two lists. Refuses 61, a length that is
// no multiple of 52; then 9, a list that is shorter than the number of cells. A bad cell does not hold up the next.
pub fn sheet_positions(
    sheet: &[u16],
    refusals: &mut [u16],
    positions: &mut [u64],
) -> Result<(), Refusal>
    ensures { SheetPromise sheet.now refusals.old positions.old refusals.new positions.new result }
{
    if sheet.len() % CELL != 0 {
        return Err(Refusal::SheetShape);
    }
    let cells = sheet.len() / CELL;
    if refusals.len() < cells {
        return Err(Refusal::ListShort);
    }
    if positions.len() < cells {
        return Err(Refusal::ListShort);
    }
    answer_cells(sheet, refusals, positions);
    Ok(())
}
