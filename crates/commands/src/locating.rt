// The cell that an address names.
ghost use Rattle.std.specs.Prelude.{◌≡◌, ◌<◌, IfOk, false, length};
ghost use Rattle.workbook.specs.Edits.{is_outside};
ghost use Rattle.commands.specs.Locating.{cell_named};

use crate::address::{at_last_mark, is_place};
use crate::answer::Answer;
use crate::sheet::sheet_before;
use cell_refs::{Cell, SheetNames, read_address};

/// The cell that a text names, or what is answered where it names none. No memory is wanted.
pub fn locate(sheets: &SheetNames, text: &str) -> Result<Cell, Answer>
    ensures named { result ≡ cell_named sheets.now text.now }
    ensures listed { IfOk result (λ cell. cell.sheet.0 < length sheets.now) }
    ensures inside { IfOk result (λ cell. is_outside cell ≡ false) }
{
    let Some((before, place)) = at_last_mark(text) else {
        return Err(Answer::BadAddress);
    };
    if !is_place(place) {
        return Err(Answer::BadAddress);
    }
    let Some(named) = sheet_before(sheets, before) else {
        return Err(Answer::BadAddress);
    };
    let Some(sheet) = named else {
        return Err(Answer::UnknownSheet);
    };
    let Some((row, col)) = read_address(place) else {
        return Err(Answer::OutOfSheet);
    };
    Ok(Cell { sheet, row, col })
}
