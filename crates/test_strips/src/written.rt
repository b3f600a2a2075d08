// Cells and areas. A cell is written as its column and its row, from 0.

use cell_refs::{Area, COLUMNS, Cell, ROWS, SheetId};
use std::test::Fail;

/// A cell of the first sheet: its column and its row, from 0.
pub(crate) fn cell(col: u16, row: u16) -> Cell {
    Cell {
        sheet: SheetId(0),
        row,
        col,
    }
}

/// The area between two cells.
pub(crate) fn area(first: Cell, last: Cell) -> Result<Area, Fail> {
    if first.row >= ROWS || first.col >= COLUMNS || last.row >= ROWS || last.col >= COLUMNS {
        return Err(Fail::new("an area beside the sheet"));
    }
    Ok(Area::between(first, last))
}
