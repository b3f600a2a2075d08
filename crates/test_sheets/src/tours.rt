// Circular cells of a small workbook. What is expected follows from the rules by hand.

use crate::books::open_workbook;
use crate::texts::check;
use cell_refs::{Cell, SheetId};
use dep_table::{CellSet, Deps};
use std::alloc::Global;
use std::test::Fail;

// A cell of the first row of the first sheet.
fn first_row(col: u16) -> Cell {
    Cell {
        sheet: SheetId(0),
        row: 0,
        col,
    }
}

// Whether a cell is circular, as a text.
fn told(cells: &CellSet, cell: Cell) -> &'static str {
    if cells.has(cell) {
        "circular"
    } else {
        "not circular"
    }
}

#[test]
fn circular_gives_the_circular_cells(rt: HostRuntime) -> Result<(), Fail> {
    let workbook = open_workbook(rt.alloc(), "=A1,=1\n", "1\n", "")?;
    let deps = Deps::open(rt.alloc(), &workbook)?;
    let circular = deps.circular(&CellSet::new(rt.alloc()))?;
    check(told(&circular, first_row(0)), "circular", "a cell alone")?;
    check(told(&circular, first_row(1)), "not circular", "a number")
}
