// The forms of stale places: each cell after those to which it refers, and then the sides.
ghost use Rattle.std.specs.Prelude.{◌≡◌, ◌<◌, ◌≤◌, ◌+◌, IfOk, None, OnOk, IsSome, Some, ℕ, ⊤, false, slice_get, true};
ghost use Rattle.std.specs.FinSet as set;
ghost use Rattle.cell_refs.specs.declared.cell.Cell.{Cell};
ghost use Rattle.dep_table.specs.Order.{HasFree, IsOrder};
ghost use Rattle.dep_table.specs.References.{AreReferencesOf};
ghost use Rattle.needed_forms.specs.FromExtract.{form_at};
ghost use Rattle.needed_forms.specs.FromFormExtraction.{numbered_in};
ghost use Rattle.formula_ast.specs.Tree.{Tree};
ghost use Rattle.extract_incr.specs.Keeping.{AllAreKept, AreKept, HaveOwnNumbers};
ghost use Rattle.extract_incr.specs.Settling.{AreCircular, AreThere, Goes, IsThere, kept_in, leaf_in, unmade};
ghost use Rattle.recalculation.specs.Entries.{entry};
ghost use Rattle.recalculation.specs.Walks.{is_circular, refers};
ghost use Rattle.needed_forms.specs.FromSheetProblems.{tree_of};
ghost use Rattle.workbook.specs.Kinds.{book_of};
ghost use Rattle.cell_refs.specs.declared.place.Place.TheVariants as place;

use crate::circles::refers_to_circle;
use crate::stale::{extract_stale, keep};
use cell_refs::Cell;
use dep_table::{CellSet, Deps};
use formula_ast::Expr;
use memory::Memory;
use needed_forms::{CellForm, FormTable, Steps};
use std::alloc::Global;
use std::sync::ledger::Ledger;
use workbook::{Adj, Place, Workbook};

/// Makes the forms of all stale places, each once.
pub(crate) fn settle<L: Ledger>(
    alloc: Global,
    book: &Workbook,
    deps: &Deps,
    adj: &Adj,
    sides: &[(u16, Expr)],
    table: &mut FormTable,
    steps: &mut Steps<L>,
) -> Result<(), Memory>
    requires references { AreReferencesOf deps.now (book_of book.now) }
    requires numbers { HaveOwnNumbers sides.now }
    requires kept { AreKept (book_of book.now) (kept_in adj.now sides.now table.old) }
    ensures goes { Goes (book_of book.now) (kept_in adj.now sides.now table.old)
        (kept_in adj.now sides.now table.new) }
    ensures settled { OnOk result
        (AllAreKept (book_of book.now) (kept_in adj.now sides.now table.new)) }
    ensures counted { steps.old ≤ steps.new }
    ensures bound { steps.new
        ≤ steps.old + unmade (book_of book.now) (kept_in adj.now sides.now table.old) }
{
    let leaves = set_of(alloc, adj.cells())?;
    let tour = deps.tour(&leaves)?;
    let circular = tour.circular.cells(alloc)?;
    settle_places(
        alloc,
        book,
        adj,
        sides,
        circular.as_slice(),
        tour.order.as_slice(),
        table,
        steps,
    )
}

// Cells as a set.
fn set_of(alloc: Global, cells: &[Cell]) -> Result<CellSet, Memory>
    ensures { IfOk result (λ found. found ≡ set.from_list cells.now) }
{
    let mut found = CellSet::new(alloc);
    for &cell in cells {
        found.add(cell)?;
    }
    Ok(found)
}

// Makes the forms of all stale places, by the circular cells and an order of the others.
fn settle_places<L: Ledger>(
    alloc: Global,
    book: &Workbook,
    adj: &Adj,
    sides: &[(u16, Expr)],
    circular: &[Cell],
    order: &[Cell],
    table: &mut FormTable,
    steps: &mut Steps<L>,
) -> Result<(), Memory>
    requires circular { AreCircular (book_of book.now) adj.now circular.now }
    requires order { IsOrder (book_of book.now) (leaf_in adj.now) order.now }
    requires free { HasFree (book_of book.now) (leaf_in adj.now) (λ a. ⊤) order.now }
    requires numbers { HaveOwnNumbers sides.now }
    requires kept { AreKept (book_of book.now) (kept_in adj.now sides.now table.old) }
    ensures goes { Goes (book_of book.now) (kept_in adj.now sides.now table.old)
        (kept_in adj.now sides.now table.new) }
    ensures settled { OnOk result
        (AllAreKept (book_of book.now) (kept_in adj.now sides.now table.new)) }
    ensures counted { steps.old ≤ steps.new }
    ensures bound { steps.new
        ≤ steps.old + unmade (book_of book.now) (kept_in adj.now sides.now table.old) }
{
    settle_cells(alloc, book, adj, sides, circular, order, table, steps)?;
    settle_sides(alloc, book, adj, sides, circular, table, steps)?;
    Ok(())
}

// Makes the forms of all stale cells.
fn settle_cells<L: Ledger>(
    alloc: Global,
    book: &Workbook,
    adj: &Adj,
    sides: &[(u16, Expr)],
    circular: &[Cell],
    order: &[Cell],
    table: &mut FormTable,
    steps: &mut Steps<L>,
) -> Result<(), Memory>
    requires circular { AreCircular (book_of book.now) adj.now circular.now }
    requires order { IsOrder (book_of book.now) (leaf_in adj.now) order.now }
    requires free { HasFree (book_of book.now) (leaf_in adj.now) (λ a. ⊤) order.now }
    requires numbers { HaveOwnNumbers sides.now }
    requires kept { AreKept (book_of book.now) (kept_in adj.now sides.now table.old) }
    ensures goes { Goes (book_of book.now) (kept_in adj.now sides.now table.old)
        (kept_in adj.now sides.now table.new) }
    ensures there { OnOk result
        (AreThere (book_of book.now) (kept_in adj.now sides.now table.new)) }
    ensures counted { steps.old ≤ steps.new }
    ensures ok { OnOk result
        (steps.new + unmade (book_of book.now) (kept_in adj.now sides.now table.new)
        ≤ steps.old + unmade (book_of book.now) (kept_in adj.now sides.now table.old)) }
    ensures bound { steps.new
        ≤ steps.old + unmade (book_of book.now) (kept_in adj.now sides.now table.old) }
{
    settle_circular(book, adj, sides, circular, table)?;
    settle_order(alloc, book, adj, sides, order, table, steps)?;
    Ok(())
}

// Makes the forms of stale circular cells, which are no steps.
fn settle_circular(
    book: &Workbook,
    adj: &Adj,
    sides: &[(u16, Expr)],
    cells: &[Cell],
    table: &mut FormTable,
) -> Result<(), Memory>
    requires circular { (p : ℕ) (a : Cell) → slice_get cells.now p ≡ Some a
        → is_circular (book_of book.now) (leaf_in adj.now) a ≡ true }
    requires numbers { HaveOwnNumbers sides.now }
    requires kept { AreKept (book_of book.now) (kept_in adj.now sides.now table.old) }
    ensures goes { Goes (book_of book.now) (kept_in adj.now sides.now table.old)
        (kept_in adj.now sides.now table.new) }
    ensures there { OnOk result ((p : ℕ) (a : Cell) → slice_get cells.now p ≡ Some a
        → IsSome (form_at table.new (place.Cell a))) }
{
    for &cell in cells {
        settle_circular_cell(book, adj, sides, cell, table)?;
    }
    Ok(())
}

// Makes the form of a circular cell, if it is stale.
fn settle_circular_cell(
    book: &Workbook,
    adj: &Adj,
    sides: &[(u16, Expr)],
    cell: Cell,
    table: &mut FormTable,
) -> Result<(), Memory>
    requires circular { is_circular (book_of book.now) (leaf_in adj.now) cell ≡ true }
    requires numbers { HaveOwnNumbers sides.now }
    requires kept { AreKept (book_of book.now) (kept_in adj.now sides.now table.old) }
    ensures goes { Goes (book_of book.now) (kept_in adj.now sides.now table.old)
        (kept_in adj.now sides.now table.new) }
    ensures there { OnOk result (IsSome (form_at table.new (place.Cell cell))) }
{
    let place = Place::Cell(cell);
    if table.get(place).is_some() {
        return Ok(());
    }
    keep(book, adj, sides, place, CellForm::Circular, table)
}

// Makes the forms of stale cells in an order.
fn settle_order<L: Ledger>(
    alloc: Global,
    book: &Workbook,
    adj: &Adj,
    sides: &[(u16, Expr)],
    order: &[Cell],
    table: &mut FormTable,
    steps: &mut Steps<L>,
) -> Result<(), Memory>
    requires order { IsOrder (book_of book.now) (leaf_in adj.now) order.now }
    requires numbers { HaveOwnNumbers sides.now }
    requires kept { AreKept (book_of book.now) (kept_in adj.now sides.now table.old) }
    ensures goes { Goes (book_of book.now) (kept_in adj.now sides.now table.old)
        (kept_in adj.now sides.now table.new) }
    ensures there { OnOk result ((p : ℕ) (a : Cell) → slice_get order.now p ≡ Some a
        → IsThere (book_of book.now) (kept_in adj.now sides.now table.new) (place.Cell a)) }
    ensures counted { steps.old ≤ steps.new }
    ensures ok { OnOk result
        (steps.new + unmade (book_of book.now) (kept_in adj.now sides.now table.new)
        ≤ steps.old + unmade (book_of book.now) (kept_in adj.now sides.now table.old)) }
    ensures bound { steps.new
        ≤ steps.old + unmade (book_of book.now) (kept_in adj.now sides.now table.old) }
{
    for &cell in order {
        settle_cell(alloc, book, adj, sides, cell, table, steps)?;
    }
    Ok(())
}

// Makes the form of a cell, if it is stale, where those have theirs to which it refers.
fn settle_cell<L: Ledger>(
    alloc: Global,
    book: &Workbook,
    adj: &Adj,
    sides: &[(u16, Expr)],
    cell: Cell,
    table: &mut FormTable,
    steps: &mut Steps<L>,
) -> Result<(), Memory>
    requires free { is_circular (book_of book.now) (leaf_in adj.now) cell ≡ false }
    requires ready { numbered_in adj.now cell ≡ None
        → (b : Cell) → refers (entry (book_of book.now) cell) b ≡ true
        → IsThere (book_of book.now) (kept_in adj.now sides.now table.old) (place.Cell b) }
    requires numbers { HaveOwnNumbers sides.now }
    requires kept { AreKept (book_of book.now) (kept_in adj.now sides.now table.old) }
    ensures goes { Goes (book_of book.now) (kept_in adj.now sides.now table.old)
        (kept_in adj.now sides.now table.new) }
    ensures there { OnOk result
        (IsThere (book_of book.now) (kept_in adj.now sides.now table.new) (place.Cell cell)) }
    ensures counted { steps.old ≤ steps.new }
    ensures ok { OnOk result
        (steps.new + unmade (book_of book.now) (kept_in adj.now sides.now table.new)
        ≤ steps.old + unmade (book_of book.now) (kept_in adj.now sides.now table.old)) }
    ensures bound { steps.new
        ≤ steps.old + unmade (book_of book.now) (kept_in adj.now sides.now table.old) }
{
    let place = Place::Cell(cell);
    if adj.find(cell).is_some() {
        return Ok(());
    }
    if table.get(place).is_some() {
        return Ok(());
    }
    let Some(tree) = book.tree(cell) else {
        return Ok(());
    };
    extract_stale(alloc, book, adj, sides, place, tree, table, steps)
}

// Makes the forms of stale sides, where all cells have theirs.
fn settle_sides<L: Ledger>(
    alloc: Global,
    book: &Workbook,
    adj: &Adj,
    sides: &[(u16, Expr)],
    circular: &[Cell],
    table: &mut FormTable,
    steps: &mut Steps<L>,
) -> Result<(), Memory>
    requires circular { AreCircular (book_of book.now) adj.now circular.now }
    requires cells { AreThere (book_of book.now) (kept_in adj.now sides.now table.old) }
    requires numbers { HaveOwnNumbers sides.now }
    requires kept { AreKept (book_of book.now) (kept_in adj.now sides.now table.old) }
    ensures goes { Goes (book_of book.now) (kept_in adj.now sides.now table.old)
        (kept_in adj.now sides.now table.new) }
    ensures there { OnOk result ((p : ℕ) (s : ℕ × Tree) → slice_get sides.now p ≡ Some s
        → IsSome (form_at table.new (place.Side s.0))) }
    ensures counted { steps.old ≤ steps.new }
    ensures ok { OnOk result
        (steps.new + unmade (book_of book.now) (kept_in adj.now sides.now table.new)
        ≤ steps.old + unmade (book_of book.now) (kept_in adj.now sides.now table.old)) }
    ensures bound { steps.new
        ≤ steps.old + unmade (book_of book.now) (kept_in adj.now sides.now table.old) }
{
    for side in sides {
        settle_side(
            alloc, book, adj, sides, circular, side.0, &side.1, table, steps,
        )?;
    }
    Ok(())
}

// Makes the form of a side, if it is stale. One that refers to a circular cell is no step.
fn settle_side<L: Ledger>(
    alloc: Global,
    book: &Workbook,
    adj: &Adj,
    sides: &[(u16, Expr)],
    circular: &[Cell],
    number: u16,
    tree: &Expr,
    table: &mut FormTable,
    steps: &mut Steps<L>,
) -> Result<(), Memory>
    requires tree { tree_of sides.now number ≡ Some tree.now }
    requires circular { AreCircular (book_of book.now) adj.now circular.now }
    requires cells { AreThere (book_of book.now) (kept_in adj.now sides.now table.old) }
    requires numbers { HaveOwnNumbers sides.now }
    requires kept { AreKept (book_of book.now) (kept_in adj.now sides.now table.old) }
    ensures goes { Goes (book_of book.now) (kept_in adj.now sides.now table.old)
        (kept_in adj.now sides.now table.new) }
    ensures there { OnOk result (IsSome (form_at table.new (place.Side number))) }
    ensures counted { steps.old ≤ steps.new }
    ensures ok { OnOk result
        (steps.new + unmade (book_of book.now) (kept_in adj.now sides.now table.new)
        ≤ steps.old + unmade (book_of book.now) (kept_in adj.now sides.now table.old)) }
    ensures bound { steps.new
        ≤ steps.old + unmade (book_of book.now) (kept_in adj.now sides.now table.old) }
{
    let place = Place::Side(number);
    if table.get(place).is_some() {
        return Ok(());
    }
    if refers_to_circle(alloc, book, adj, tree, circular)? {
        return keep(book, adj, sides, place, CellForm::Circular, table);
    }
    extract_stale(alloc, book, adj, sides, place, tree, table, steps)
}
