// What is computed of formula cells.
ghost use Rattle.std.specs.Prelude.{◌≡◌, OnErr, OnOk, if◌then◌else◌, Some};
ghost use Rattle.std.specs.BTreeMap.{is_at};
ghost use Rattle.cell_refs.specs.declared.cell.Cell.{Cell};
ghost use Rattle.cell_refs.specs.Cells.{cell_cmp};
ghost use Rattle.recalc.specs.Rows.{row_at, some_wide};

use cell_refs::Cell;
use sheet_model::{Memory, Value};
use std::collections::BTreeMap;

/// What is computed of a formula cell: its value, where it has one, whether a number of its own calculation is too wide, and, if
/// these are kept, the cells at which it looks.
#[derive(Drop)]
pub(crate) struct Row {
    pub(crate) value: Option<Value>,
    pub(crate) is_wide: bool,
    pub(crate) looks: Vec<Cell>,
}

/// Puts the row of a cell in place of what there was.
pub(crate) fn put(rows: &mut BTreeMap<Cell, Row>, cell: Cell, row: Row) -> Result<(), Memory>
    ensures { OnOk result ((q : Cell) → row_at rows.new.entries q
        ≡ (if is_at (cell_cmp cell) q then Some row else row_at rows.old.entries q)) }
{
    match rows.insert(cell, row) {
        Ok(_) => Ok(()),
        Err(_) => Err(Memory),
    }
}

/// Whether a row is wide.
pub(crate) fn some_wide(rows: &BTreeMap<Cell, Row>) -> bool
    ensures { result ≡ some_wide rows.now.entries }
{
    rows.values().any(|row| row.is_wide)
}
