// What is known of the cells of a workbook before its formulas are filled in.
ghost use Rattle.std.specs.Prelude.{◌≡◌, IfOk};
ghost use Rattle.recalc.specs.Rows.{row_at, seen_of, value_in};
ghost use Rattle.recalc.specs.Values.{HasSeen, IsTable, known_value};
ghost use Rattle.workbook.specs.Kinds.{book_of};

use crate::rows::Row;
use crate::values::{Known, Values};
use cell_refs::{Cell, ErrorKind};
use sheet_model::{Memory, Value};
use std::alloc::Global;
use std::collections::BTreeMap;
use workbook::{Kind, Workbook};

/// What is known of all cells, where some formulas have rows.
pub(crate) fn gather<'a>(
    alloc: Global,
    book: &'a Workbook,
    rows: &BTreeMap<Cell, Row>,
) -> Result<Values<'a>, Memory>
    ensures table { IfOk result IsTable }
    ensures seen { IfOk result (HasSeen (book_of book.now) rows.now.entries) }
{
    let cells = book.text_cells(alloc)?;
    let mut values = Values::new(alloc, cells.len())?;
    for found in &cells {
        let known = known_of(alloc, found.kind, found.text, rows, found.cell)?;
        values.put(found.cell, known)?;
    }
    Ok(values)
}

/// What is known of a cell, by the kind of its text.
pub(crate) fn known_of<'a>(
    alloc: Global,
    kind: Kind,
    text: &'a str,
    rows: &BTreeMap<Cell, Row>,
    cell: Cell,
) -> Result<Known<'a>, Memory>
    ensures { IfOk result (λ known. known_value known
        ≡ seen_of kind text.now (row_at rows.now.entries cell)) }
{
    match kind {
        Kind::Empty => Ok(Known::Value(Value::Empty)),
        Kind::Number(number) => Ok(Known::Value(Value::Number(number))),
        Kind::Logical(holds) => Ok(Known::Value(Value::Logical(holds))),
        Kind::Plain => Ok(Known::Text(text)),
        Kind::Formula => known_in_rows(alloc, rows, cell),
        Kind::Malformed => Ok(Known::Value(Value::Error(ErrorKind::Malformed))),
    }
}

// What is known of a formula, which may have a row.
fn known_in_rows<'a>(
    alloc: Global,
    rows: &BTreeMap<Cell, Row>,
    cell: Cell,
) -> Result<Known<'a>, Memory>
    ensures { IfOk result (λ known. known_value known ≡ value_in (row_at rows.now.entries cell)) }
{
    match rows.get(&cell) {
        Some(row) => known_in(alloc, row),
        None => Ok(Known::Nothing),
    }
}

/// What is known of a formula by its row.
pub(crate) fn known_in<'a>(alloc: Global, row: &Row) -> Result<Known<'a>, Memory>
    ensures { IfOk result (λ known. known_value known ≡ row.now.value) }
{
    match &row.value {
        Some(value) => Ok(Known::Value(value.copy(alloc)?)),
        None => Ok(Known::Nothing),
    }
}
