// A sheet of words in one call.
ghost use Rattle.std.specs.Prelude.{◌≡◌, Result};
ghost use Rattle.refusals.specs.declared.Refusal.{Refusal};
ghost use Rattle.sheet.specs.Promises.{SheetPromise};
ghost use Rattle.kaldvemir_answers.specs.Answers as answers;

#[unsafe(no_mangle)]
pub extern "C" fn kaldvemir_sheet_positions(
    sheet: &[u16],
    refusals: &mut [u16],
    positions: &mut [u64],
) -> u16
    ensures { (a : Result (Unit {0}) Refusal)
        × SheetPromise sheet.now refusals.old positions.old refusals.new positions.new a
        × (result ≡ answers.refusal_number a) }
{
    kaldvemir::sheets::kaldvemir_sheet_positions(sheet, refusals, positions)
}
