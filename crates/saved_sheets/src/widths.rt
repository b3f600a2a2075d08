// How far the rows of a sheet reach.
ghost use Rattle.std.specs.Prelude.{◌≡◌, ◌<◌, ◌==◌, ◌≤◌, ℕ, IfOk, OnOk, length, max, slice_index};
ghost use Rattle.saved_sheets.specs.Widths.{IsReachedOn, used_widths};

use cell_refs::{COLUMNS, Cell, ROWS, SheetId};
use memory::Memory;
use std::alloc::Global;
use workbook::Workbook;

/// How many columns each row of a sheet uses, down to its last row with a text.
pub(crate) fn used_widths(
    alloc: Global,
    book: &Workbook,
    sheet: SheetId,
) -> Result<Vec<u16>, Memory>
    ensures widths { IfOk result (λ widths. widths.items ≡ used_widths book.now.contents sheet.0) }
    ensures rows { IfOk result (λ widths. length widths.items ≤ ROWS) }
{
    book.texts_are_listed();
    let mut widths = Vec::new(alloc);
    let mut after = None;
    while let Some(cell) = book.next_cell(after) {
        reach(&mut widths, sheet, cell)?;
        after = Some(cell);
    }
    Ok(widths)
}

// Makes the row of a cell reach to it, where the cell lies on the sheet.
fn reach(widths: &mut Vec<u16>, sheet: SheetId, cell: Cell) -> Result<(), Memory>
    requires { cell.col < COLUMNS }
    ensures { OnOk result
        (IsReachedOn (cell.sheet.0 == sheet.0) cell widths.old.items widths.new.items) }
{
    if cell.sheet != sheet {
        return Ok(());
    }
    let row = usize::from(cell.row);
    have_rows(widths, row + 1)?;
    if widths[row] <= cell.col {
        widths[row] = cell.col + 1;
    }
    Ok(())
}

// Adds rows that reach nowhere, up to so many.
fn have_rows(widths: &mut Vec<u16>, rows: usize) -> Result<(), Memory>
    ensures same { OnOk result ((row : ℕ) → slice_index widths.new.items row
        ≡ slice_index widths.old.items row) }
    ensures rows { OnOk result (length widths.new.items ≡ max (length widths.old.items) rows) }
{
    if widths.len() < rows {
        widths.resize(rows, 0)?;
    }
    Ok(())
}
