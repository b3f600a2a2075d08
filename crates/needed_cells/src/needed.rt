// The cells that a model needs.
ghost use Rattle.std.specs.Prelude.{◌≡◌, ◌↔◌, All, Contains, IfOk, OnOk, [], true};
ghost use Rattle.std.specs.FinSet as set;
ghost use Rattle.cell_refs.specs.declared.cell.Cell.{Cell};
ghost use Rattle.form_needs.specs.Needed.{IsNeeded};
ghost use Rattle.needed_cells.specs.Finding.{Has, IsSpreading, IsStarted, StartsAt, asked};
ghost use Rattle.needed_cells.specs.Settled.{IsRoot, IsSettled};
ghost use Rattle.workbook.specs.Kinds.{book_of};
ghost use Rattle.cell_refs.specs.declared.place.Place.TheVariants as place;

use crate::found::add_all;
use crate::looks::looks_of;
use crate::sheet::Sheet;
use cell_refs::Cell;
use dep_table::CellSet;
use extract::FormTable;
use formula_ast::Expr;
use memory::Memory;
use std::alloc::Global;
use workbook::{Adj, Place, Workbook};

/// The cells that a model of these roots needs: those among the roots that aren't to be decided, and each at which a needed place
/// looks.
pub fn needed_cells(
    alloc: Global,
    book: &Workbook,
    adj: &Adj,
    sides: &[(u16, Expr)],
    forms: &FormTable,
    roots: &[Place],
) -> Result<CellSet, Memory>
    requires settled { IsSettled (book_of book.now) sides.now adj.now forms.now }
    requires roots { All (IsRoot sides.now) roots.now }
    ensures { IfOk result (λ found. (c : Cell) → (set.contains found c ≡ true) ↔ IsNeeded (record {
      book = book_of book.now;
      sides = sides.now;
      decisions = adj.now;
      roots = roots.now;
    }) (place.Cell c)) }
{
    let sheet = Sheet {
        book,
        adj,
        sides,
        forms,
        roots,
    };
    let mut found = CellSet::new(alloc);
    let mut pending = Vec::new(alloc);
    start(alloc, &sheet, &mut found, &mut pending)?;
    spread(alloc, &sheet, &mut found, &mut pending)?;
    Ok(found)
}

// Finds the roots, and the cells at which those of them look that are sides.
fn start(
    alloc: Global,
    sheet: &Sheet,
    found: &mut CellSet,
    pending: &mut Vec<Cell>,
) -> Result<(), Memory>
    requires settled { IsSettled
        (book_of sheet.now.book.now) sheet.now.sides.now sheet.now.adj.now sheet.now.forms.now }
    requires spreads { IsSpreading (asked sheet.now.book.now sheet.now.sides.now
        sheet.now.adj.now sheet.now.roots.now) found.old pending.old.items }
    ensures spreads { OnOk result (IsSpreading (asked sheet.now.book.now sheet.now.sides.now
        sheet.now.adj.now sheet.now.roots.now) found.new pending.new.items) }
    ensures started { OnOk result (All (IsStarted (asked sheet.now.book.now sheet.now.sides.now
        sheet.now.adj.now sheet.now.roots.now) found.new) sheet.now.roots.now) }
{
    for &root in sheet.roots {
        let cells = first_cells(alloc, sheet, root)?;
        add_all(&cells, found, pending)?;
    }
    Ok(())
}

// The cells at which the search starts from a root.
fn first_cells(alloc: Global, sheet: &Sheet, root: Place) -> Result<Vec<Cell>, Memory>
    requires settled { IsSettled
        (book_of sheet.now.book.now) sheet.now.sides.now sheet.now.adj.now sheet.now.forms.now }
    ensures { IfOk result (λ cells. (b : Cell) → Contains cells.items b ↔ StartsAt (asked
        sheet.now.book.now sheet.now.sides.now sheet.now.adj.now sheet.now.roots.now) root b) }
{
    let Place::Cell(cell) = root else {
        return looks_of(alloc, sheet, root);
    };
    let mut cells = Vec::new(alloc);
    if sheet.adj.find(cell).is_none() {
        cells.push(cell)?;
    }
    Ok(cells)
}

// Follows what each cell looks at that is still to be followed.
fn spread(
    alloc: Global,
    sheet: &Sheet,
    found: &mut CellSet,
    pending: &mut Vec<Cell>,
) -> Result<(), Memory>
    requires settled { IsSettled
        (book_of sheet.now.book.now) sheet.now.sides.now sheet.now.adj.now sheet.now.forms.now }
    requires spreads { IsSpreading (asked sheet.now.book.now sheet.now.sides.now
        sheet.now.adj.now sheet.now.roots.now) found.old pending.old.items }
    ensures spreads { OnOk result (IsSpreading (asked sheet.now.book.now
        sheet.now.sides.now sheet.now.adj.now sheet.now.roots.now) found.new []) }
    ensures kept { OnOk result ((c : Cell) → Has found.old c → Has found.new c) }
{
    while let Some(cell) = pending.pop() {
        let looks = looks_of(alloc, sheet, Place::Cell(cell))?;
        add_all(&looks, found, pending)?;
    }
    Ok(())
}
