// Filling rows.
ghost use Rattle.std.specs.Prelude.{◌≡◌, ◌&&◌, IfOk, OnOk, Some, false, true, is_none, slice_get, ℕ};
ghost use Rattle.cell_refs.specs.declared.cell.Cell.{Cell};
ghost use Rattle.dep_table.specs.Order.{IsOrder};
ghost use Rattle.recalculation.specs.Entries.{entry, nothing};
ghost use Rattle.recalculation.specs.Looking.{are_known};
ghost use Rattle.recalculation.specs.Walks.{is_circular, is_formula, refers};
ghost use Rattle.recalc.specs.Rows.{AreRows, HasRow, IsComputed, kept_looks};
ghost use Rattle.recalc.specs.Values.{HasSeen, IsTable, value_at};
ghost use Rattle.workbook.specs.Kinds.{book_of};

use crate::gather::{gather, known_in};
use crate::rows::{Row, put};
use crate::values::Values;
use cell_refs::Cell;
use evaluation::{Part, evaluate};
use formula_ast::Expr;
use sheet_model::Memory;
use std::alloc::Global;
use std::collections::BTreeMap;
use workbook::Workbook;

/// Fills in the rows of formulas that aren't circular, in an order of them, with the cells at which they look if these are kept.
pub(crate) fn fill(
    alloc: Global,
    book: &Workbook,
    order: &[Cell],
    keeps_looks: bool,
    rows: &mut BTreeMap<Cell, Row>,
) -> Result<(), Memory>
    requires order { IsOrder (book_of book.now) nothing order.now }
    requires right { AreRows (book_of book.now) keeps_looks rows.old.entries }
    ensures right { OnOk result (AreRows (book_of book.now) keeps_looks rows.new.entries) }
    ensures kept { OnOk result ((a : Cell) → HasRow rows.old.entries a
        → HasRow rows.new.entries a) }
    ensures filled { OnOk result ((p : ℕ) (a : Cell) → slice_get order.now p ≡ Some a
        → HasRow rows.new.entries a) }
{
    let mut values = gather(alloc, book, rows)?;
    for &cell in order {
        put_row(alloc, book, cell, keeps_looks, rows, &mut values)?;
    }
    Ok(())
}

// Fills in the row of a formula where all the formulas have theirs to which it refers.
fn put_row(
    alloc: Global,
    book: &Workbook,
    cell: Cell,
    keeps_looks: bool,
    rows: &mut BTreeMap<Cell, Row>,
    values: &mut Values,
) -> Result<(), Memory>
    requires free { is_circular (book_of book.now) nothing cell ≡ false }
    requires ready { (b : Cell) → refers (entry (book_of book.now) cell) b ≡ true
        → is_formula (entry (book_of book.now) b) ≡ true → HasRow rows.old.entries b }
    requires right { AreRows (book_of book.now) keeps_looks rows.old.entries }
    requires table { IsTable values.old }
    requires seen { HasSeen (book_of book.now) rows.old.entries values.old }
    ensures right { OnOk result (AreRows (book_of book.now) keeps_looks rows.new.entries) }
    ensures table { OnOk result (IsTable values.new) }
    ensures seen { OnOk result (HasSeen (book_of book.now) rows.new.entries values.new) }
    ensures kept { OnOk result ((a : Cell) → HasRow rows.old.entries a
        → HasRow rows.new.entries a) }
    ensures filled { OnOk result (is_formula (entry (book_of book.now) cell) ≡ true
        → HasRow rows.new.entries cell) }
{
    let Some(tree) = book.tree(cell) else {
        return Ok(());
    };
    let row = row_of(alloc, values, tree, keeps_looks)?;
    values.put(cell, known_in(alloc, &row)?)?;
    put(rows, cell, row)?;
    Ok(())
}

// The row of a formula over the values of others.
fn row_of(alloc: Global, values: &Values, tree: &Expr, keeps_looks: bool) -> Result<Row, Memory>
    ensures { IfOk result (λ row. IsComputed (value_at values.now) tree.now keeps_looks row) }
{
    let part = evaluate(alloc, values, tree)?;
    let looks = kept_looks(alloc, &part, keeps_looks)?;
    let is_wide = is_wide(alloc, values, &part)?;
    let value = part.to_value(alloc)?;
    Ok(Row {
        value,
        is_wide,
        looks,
    })
}

// The cells at which a part looks, if these are kept.
fn kept_looks(alloc: Global, part: &Part, keeps_looks: bool) -> Result<Vec<Cell>, Memory>
    ensures { IfOk result (λ looks. looks.items ≡ kept_looks keeps_looks part.now.looks) }
{
    if keeps_looks {
        return part.looks().cells(alloc);
    }
    Ok(Vec::new(alloc))
}

// Whether a part has no value though all cells have one at which it looks.
fn is_wide(alloc: Global, values: &Values, part: &Part) -> Result<bool, Memory>
    ensures { IfOk result (λ wide. wide
        ≡ (are_known (value_at values.now) part.now.looks && is_none part.now.outcome)) }
{
    if part.outcome().is_some() {
        return Ok(false);
    }
    let looks = part.looks().cells(alloc)?;
    Ok(values.all_known(&looks))
}
