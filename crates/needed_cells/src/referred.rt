// The cells to which trees refer.
ghost use Rattle.std.specs.Prelude.{◌≡◌, ◌++◌, ◌∷◌, ◌⊎◌, ◌↔◌, Contains, IfOk, OnOk, Some, [], if◌then◌else◌, true};
ghost use Rattle.cell_refs.specs.declared.cell.Cell.{Cell};
ghost use Rattle.extract.specs.Knowing.{is_open_text};
ghost use Rattle.needed_cells.specs.Finding.{is_open_within};
ghost use Rattle.recalculation.specs.Entries.{Formula};
ghost use Rattle.recalculation.specs.Walks.{refers};
ghost use Rattle.workbook.specs.Kinds.{book_of};

use cell_refs::{Area, Cell};
use formula_ast::Expr;
use memory::Memory;
use std::alloc::Global;
use workbook::{Adj, Kind, Workbook};

/// The cells with a text that aren't to be decided to which a tree refers.
pub(crate) fn referred_by(
    alloc: Global,
    book: &Workbook,
    adj: &Adj,
    tree: &Expr,
) -> Result<Vec<Cell>, Memory>
    ensures { IfOk result (λ found. (b : Cell) → Contains found.items b
        ↔ ((is_open_text (book_of book.now) adj.now b ≡ true)
        × (refers (Some (Formula tree.now)) b ≡ true))) }
{
    let areas = tree.references(alloc)?;
    let mut found = Vec::new(alloc);
    for area in areas.as_slice() {
        add_within(book, adj, area, &mut found)?;
    }
    Ok(found)
}

// Adds those in an area.
fn add_within(book: &Workbook, adj: &Adj, area: &Area, found: &mut Vec<Cell>) -> Result<(), Memory>
    ensures { OnOk result ((b : Cell) → Contains found.new.items b ↔ (Contains found.old.items b
        ⊎ (is_open_within (book_of book.now) adj.now area.now b ≡ true))) }
{
    if area.len() as usize <= book.texts() {
        add_of_area(book, adj, area, found)
    } else {
        add_of_texts(book, adj, area, found)
    }
}

// Adds them cell by cell of the area.
fn add_of_area(book: &Workbook, adj: &Adj, area: &Area, found: &mut Vec<Cell>) -> Result<(), Memory>
    ensures { OnOk result ((b : Cell) → Contains found.new.items b ↔ (Contains found.old.items b
        ⊎ (is_open_within (book_of book.now) adj.now area.now b ≡ true))) }
{
    for place in 0..area.len() {
        add_open(book, adj, area, area.at(place), found)?;
    }
    Ok(())
}

// Adds them text by text of the workbook.
fn add_of_texts(
    book: &Workbook,
    adj: &Adj,
    area: &Area,
    found: &mut Vec<Cell>,
) -> Result<(), Memory>
    ensures { OnOk result ((b : Cell) → Contains found.new.items b ↔ (Contains found.old.items b
        ⊎ (is_open_within (book_of book.now) adj.now area.now b ≡ true))) }
{
    let mut after = None;
    while let Some(cell) = book.next_cell(after) {
        add_open(book, adj, area, cell, found)?;
        after = Some(cell);
    }
    Ok(())
}

// Adds a cell if it is one of them.
fn add_open(
    book: &Workbook,
    adj: &Adj,
    area: &Area,
    cell: Cell,
    found: &mut Vec<Cell>,
) -> Result<(), Memory>
    ensures { OnOk result (found.new.items ≡ (if is_open_within (book_of book.now)
        adj.now area.now cell then found.old.items ++ cell ∷ [] else found.old.items)) }
{
    if is_open_within(book, adj, area, cell) {
        found.push(cell)?;
    }
    Ok(())
}

// Whether a cell has a text, isn't to be decided, and is in an area.
fn is_open_within(book: &Workbook, adj: &Adj, area: &Area, cell: Cell) -> bool
    ensures { result ≡ is_open_within (book_of book.now) adj.now area.now cell }
{
    is_open_text(book, adj, cell) && area.has(cell)
}

// Whether a cell has a text and isn't to be decided.
fn is_open_text(book: &Workbook, adj: &Adj, cell: Cell) -> bool
    ensures { result ≡ is_open_text (book_of book.now) adj.now cell }
{
    if adj.find(cell).is_some() {
        return false;
    }
    match book.kind(cell) {
        Kind::Empty => false,
        _ => true,
    }
}
