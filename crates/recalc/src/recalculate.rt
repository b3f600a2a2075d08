// The value of a cell.
ghost use Rattle.std.specs.Prelude.{◌≡◌, IfOk, MatchOption, Some, false, slice_get, true, ℕ};
ghost use Rattle.std.specs.FinSet as set;
ghost use Rattle.cell_refs.specs.declared.cell.Cell.{Cell};
ghost use Rattle.dep_table.specs.Order.{HasCircular, HasFree, IsOrder, Reaches};
ghost use Rattle.dep_table.specs.References.{AreReferencesOf};
ghost use Rattle.recalculation.specs.Entries.{entry, no_overriding, nothing};
ghost use Rattle.recalculation.specs.Narrow.{IsLeastWide, NoneIsWide};
ghost use Rattle.recalculation.specs.Walks.{is_circular, is_formula};
ghost use Rattle.recalc.specs.Rows.{AreRows, HasRow};
ghost use Rattle.recalc.specs.Showing.{IsShown};
ghost use Rattle.workbook.specs.Kinds.{book_of};

use crate::circular::circular_rows;
use crate::fill::fill;
use crate::rows::{Row, some_wide};
use crate::seen::Seen;
use crate::shown::Shown;
use crate::walk::least_wide;
use cell_refs::Cell;
use dep_table::{CellSet, Deps, Tour};
use evaluation::Cells;
use sheet_model::Memory;
use std::alloc::Global;
use std::collections::BTreeMap;
use workbook::Workbook;

/// The value of a cell as recalculation gives it, or the least wide cell at which it looks, itself or by others. Only the formulas
/// are computed to which references lead from the cell.
pub fn value(alloc: Global, book: &Workbook, deps: &Deps, cell: Cell) -> Result<Shown, Memory>
    requires { AreReferencesOf deps.now (book_of book.now) }
    ensures { IfOk result (IsShown (book_of book.now) cell) }
{
    let leaves = CellSet::new(alloc);
    let tour = deps.tour_from(&leaves, cell)?;
    let rows = rows_of(alloc, book, &tour, false)?;
    let value = Seen { book, rows: &rows }.value(alloc, cell)?;
    if let Some(wide) = wide_cell(alloc, book, &tour, &rows, cell)? {
        return Ok(Shown::Wide(wide));
    }
    match value {
        Some(value) => Ok(Shown::Is(value)),
        None => unreachable!(),
    }
}

// The rows of the formulas of a tour, with the cells at which they look if these are kept.
fn rows_of(
    alloc: Global,
    book: &Workbook,
    tour: &Tour,
    keeps_looks: bool,
) -> Result<BTreeMap<Cell, Row>, Memory>
    requires circular { (a : Cell) → set.contains tour.now.circular a ≡ true
        → is_circular (book_of book.now) nothing a ≡ true }
    requires order { IsOrder (book_of book.now) nothing tour.now.order.items }
    ensures right { IfOk result (λ rows. AreRows (book_of book.now) keeps_looks rows.entries) }
    ensures circular { IfOk result (λ rows. (a : Cell) → set.contains tour.now.circular a ≡ true
        → HasRow rows.entries a) }
    ensures order { IfOk result (λ rows. (p : ℕ) (a : Cell) → slice_get tour.now.order.items p
        ≡ Some a → HasRow rows.entries a) }
{
    let mut rows = circular_rows(alloc, book, &tour.circular, keeps_looks)?;
    fill(alloc, book, &tour.order, keeps_looks, &mut rows)?;
    Ok(rows)
}

// The least wide cell at which a cell looks, itself or by others, if there is one. Where a row is wide, the rows are computed once
// more with the cells at which they look.
fn wide_cell(
    alloc: Global,
    book: &Workbook,
    tour: &Tour,
    rows: &BTreeMap<Cell, Row>,
    cell: Cell,
) -> Result<Option<Cell>, Memory>
    requires circular { HasCircular (book_of book.now) nothing
        (Reaches (book_of book.now) nothing cell) (set.contains tour.now.circular) }
    requires order { IsOrder (book_of book.now) nothing tour.now.order.items }
    requires free { HasFree (book_of book.now) nothing
        (Reaches (book_of book.now) nothing cell) tour.now.order.items }
    requires right { AreRows (book_of book.now) false rows.now.entries }
    requires rows { (b : Cell) → Reaches (book_of book.now) nothing cell b
        → is_formula (entry (book_of book.now) b) ≡ true → HasRow rows.now.entries b }
    ensures { IfOk result (λ wide. MatchOption wide (NoneIsWide (book_of book.now)
        no_overriding cell) (IsLeastWide (book_of book.now) no_overriding cell)) }
{
    if !some_wide(rows) {
        return Ok(None);
    }
    let rows = rows_of(alloc, book, tour, true)?;
    least_wide(alloc, rows, cell)
}
