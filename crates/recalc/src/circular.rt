// The rows of circular cells.
ghost use Rattle.std.specs.Prelude.{◌≡◌, ◌++◌, IfOk, OnOk, flat_map, true};
ghost use Rattle.std.specs.FinSet as set;
ghost use Rattle.std.specs.List.{AllByRecursion};
ghost use Rattle.cell_refs.specs.declared.cell.Cell.{Cell};
ghost use Rattle.cell_refs.specs.Areas.{cells_of};
ghost use Rattle.formula_ast.specs.Measures.{references_of};
ghost use Rattle.recalculation.specs.Entries.{nothing};
ghost use Rattle.recalculation.specs.Walks.{is_circular};
ghost use Rattle.recalc.specs.Rows.{AreRows, HasRow, kept_looks};
ghost use Rattle.workbook.specs.Kinds.{book_of};

use crate::rows::{Row, put};
use cell_refs::{Area, Cell, ErrorKind};
use dep_table::CellSet;
use formula_ast::Expr;
use sheet_model::{Memory, Value};
use std::alloc::Global;
use std::collections::BTreeMap;
use workbook::Workbook;

/// The rows of circular cells. Each looks at all the cells to which it refers; these are kept if that is wanted.
pub(crate) fn circular_rows(
    alloc: Global,
    book: &Workbook,
    circular: &CellSet,
    keeps_looks: bool,
) -> Result<BTreeMap<Cell, Row>, Memory>
    requires { (a : Cell) → set.contains circular.now a ≡ true
        → is_circular (book_of book.now) nothing a ≡ true }
    ensures right { IfOk result (λ rows. AreRows (book_of book.now) keeps_looks rows.entries) }
    ensures all { IfOk result (λ rows. (a : Cell) → set.contains circular.now a ≡ true
        → HasRow rows.entries a) }
{
    let mut rows = BTreeMap::new(alloc);
    let cells = circular.cells(alloc)?;
    for &cell in cells.as_slice() {
        put_circular(alloc, book, cell, keeps_looks, &mut rows)?;
    }
    Ok(rows)
}

// Puts the row of a circular cell.
fn put_circular(
    alloc: Global,
    book: &Workbook,
    cell: Cell,
    keeps_looks: bool,
    rows: &mut BTreeMap<Cell, Row>,
) -> Result<(), Memory>
    requires circular { is_circular (book_of book.now) nothing cell ≡ true }
    requires right { AreRows (book_of book.now) keeps_looks rows.old.entries }
    ensures right { OnOk result (AreRows (book_of book.now) keeps_looks rows.new.entries) }
    ensures kept { OnOk result ((a : Cell) → HasRow rows.old.entries a
        → HasRow rows.new.entries a) }
    ensures put { OnOk result (HasRow rows.new.entries cell) }
{
    let Some(tree) = book.tree(cell) else {
        unreachable!();
    };
    let looks = circular_looks(alloc, tree, keeps_looks)?;
    let row = Row {
        value: Some(Value::Error(ErrorKind::Circular)),
        is_wide: false,
        looks,
    };
    put(rows, cell, row)?;
    Ok(())
}

// All cells to which a circular cell's tree refers, if these are kept.
fn circular_looks(alloc: Global, tree: &Expr, keeps_looks: bool) -> Result<Vec<Cell>, Memory>
    ensures { IfOk result (λ cells. cells.items
        ≡ kept_looks keeps_looks (flat_map cells_of (references_of tree.now))) }
{
    if keeps_looks {
        return referred_cells(alloc, tree);
    }
    Ok(Vec::new(alloc))
}

// All cells of the areas to which a tree refers.
fn referred_cells(alloc: Global, tree: &Expr) -> Result<Vec<Cell>, Memory>
    ensures { IfOk result (λ cells. cells.items ≡ flat_map cells_of (references_of tree.now)) }
{
    let Ok(areas) = tree.references(alloc) else {
        return Err(Memory);
    };
    let mut cells = Vec::new(alloc);
    for area in areas.iter() {
        push_cells(area, &mut cells)?;
    }
    Ok(cells)
}

// Puts the cells of an area behind others.
fn push_cells(area: &Area, cells: &mut Vec<Cell>) -> Result<(), Memory>
    ensures { OnOk result (cells.new.items ≡ cells.old.items ++ cells_of area.now) }
{
    for place in 0..area.len() {
        cells.push(area.at(place))?;
    }
    Ok(())
}
