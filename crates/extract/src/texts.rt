// Of some cells those with a text.
ghost use Rattle.std.specs.Prelude.{◌≡◌, ◌↔◌, Contains, IfOk, OnOk, if◌then◌else◌, true};
ghost use Rattle.std.specs.FinSet as set;
ghost use Rattle.std.specs.List.Sorted.{IsStrictlySortedBy};
ghost use Rattle.cell_refs.specs.Cells.{cell_cmp};
ghost use Rattle.cell_refs.specs.declared.cell.Cell.{Cell};
ghost use Rattle.workbook.specs.Kinds.{book_of};
ghost use Rattle.extract.specs.Knowing.{is_open_text};

use cell_refs::Cell;
use dep_table::CellSet;
use memory::Memory;
use std::alloc::Global;
use workbook::{Adj, Kind, Workbook};

/// Of some cells those with a text that aren't to be decided, the least first, each once.
pub(crate) fn texts_among(
    alloc: Global,
    book: &Workbook,
    adj: &Adj,
    cells: &[Cell],
) -> Result<Vec<Cell>, Memory>
    ensures each { IfOk result (λ found. (b : Cell) → Contains found.items b
        ↔ (Contains cells.now b × (is_open_text (book_of book.now) adj.now b ≡ true))) }
    ensures sorted { IfOk result (λ found. IsStrictlySortedBy cell_cmp found.items) }
{
    let mut found = CellSet::new(alloc);
    for &cell in cells {
        add_open(book, adj, cell, &mut found)?;
    }
    let found = found.cells(alloc)?;
    Ok(found)
}

// Adds a cell if it has a text and isn't to be decided.
fn add_open(book: &Workbook, adj: &Adj, cell: Cell, found: &mut CellSet) -> Result<(), Memory>
    ensures { OnOk result (found.new ≡ (if is_open_text (book_of book.now) adj.now cell
        then set.insert found.old cell else found.old)) }
{
    if is_open_text(book, adj, cell) {
        found.add(cell)?;
    }
    Ok(())
}

// Whether a cell has a text and isn't to be decided.
fn is_open_text(book: &Workbook, adj: &Adj, cell: Cell) -> bool
    ensures { result ≡ is_open_text (book_of book.now) adj.now cell }
{
    if adj.find(cell).is_some() {
        return false;
    }
    match book.kind(cell) {
        Kind::Empty => false,
        _ => true,
    }
}
