// A workbook that is made of its parts. What is expected follows from the rules by hand.
ghost use Rattle.std.specs.Prelude.{All, IfOk};
ghost use Rattle.workbook.specs.Gathered.{IsFieldText};

use crate::books::open_workbook;
use crate::definition::shown_by_definition;
use crate::texts::check;
use cell_refs::{Cell, SheetId, SheetNames};
use sheet_csv::Rows;
use sheet_model::Text;
use std::alloc::Global;
use std::test::Fail;
use workbook::Workbook;

// A formula for the first cell of the first sheet.
fn one_formula(alloc: Global, sheets: &SheetNames) -> Result<Vec<(Cell, Text)>, Fail>
    ensures { IfOk result (λ v. All (IsFieldText sheets.now) v.items) }
{
    let mut cells = Vec::new(alloc);
    if sheets.is_empty() {
        return Ok(cells);
    }
    let first = Cell {
        sheet: SheetId(0),
        row: 0,
        col: 0,
    };
    cells.push((first, Text::new(String::from_str(alloc, "=1+1")?)))?;
    Ok(cells)
}

#[test]
fn parts_make_a_workbook(rt: HostRuntime) -> Result<(), Fail> {
    let alloc = rt.alloc();
    let other = open_workbook(alloc, "", "", "")?;
    let cells = one_formula(alloc, other.sheets())?;
    match Workbook::from_parts(alloc, other.sheets(), cells, &Rows::new(alloc)) {
        Ok(made) => check(&shown_by_definition(alloc, &made)?, "2", "the first cell"),
        Err(_) => Err(Fail::new("it is not made")),
    }
}
