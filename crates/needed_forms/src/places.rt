// The places that a model needs.
ghost use Rattle.std.specs.Prelude.{◌≡◌, ◌↔◌, ◌++◌, All, Contains, IfOk, filter, map};
ghost use Rattle.form_needs.specs.Needed.{IsNeeded};
ghost use Rattle.needed_cells.specs.Settled.{IsRoot, IsSettled};
ghost use Rattle.needed_forms.specs.Firsts.{is_side};
ghost use Rattle.workbook.specs.Kinds.{book_of};
ghost use Rattle.cell_refs.specs.declared.place.Place.{Place};
ghost use Rattle.cell_refs.specs.declared.place.Place.TheVariants as place;

use cell_refs::Cell;
use formula_ast::Expr;
use memory::Memory;
use needed_cells::{FormTable, needed_cells};
use std::alloc::Global;
use workbook::{Adj, Place, Workbook};

/// The cells and the sides that a model of these roots needs.
pub(crate) fn needed_places(
    alloc: Global,
    book: &Workbook,
    adj: &Adj,
    sides: &[(u16, Expr)],
    forms: &FormTable,
    roots: &[Place],
) -> Result<Vec<Place>, Memory>
    requires settled { IsSettled (book_of book.now) sides.now adj.now forms.now }
    requires roots { All (IsRoot sides.now) roots.now }
    ensures { IfOk result (λ found. (p : Place) → Contains found.items p ↔ IsNeeded (record {
      book = book_of book.now;
      sides = sides.now;
      decisions = adj.now;
      roots = roots.now;
    }) p) }
{
    let found = needed_cells(alloc, book, adj, sides, forms, roots)?;
    let cells = found.cells(alloc)?;
    let places = places_of(alloc, &cells)?;
    let all = with_sides(places, roots)?;
    Ok(all)
}

// Cells as places.
fn places_of(alloc: Global, cells: &[Cell]) -> Result<Vec<Place>, Memory>
    ensures { IfOk result (λ places. places.items ≡ map place.Cell cells.now) }
{
    Ok(cells.iter().map(|cell| Place::Cell(*cell)).collect(alloc)?)
}

// These places, and behind them the sides among some others.
fn with_sides(mut places: Vec<Place>, roots: &[Place]) -> Result<Vec<Place>, Memory>
    ensures { IfOk result (λ all. all.items ≡ places.items ++ filter is_side roots.now) }
{
    for &root in roots {
        if is_side(root) {
            places.push(root)?;
        }
    }
    Ok(places)
}

// Whether a place is a side.
fn is_side(place: Place) -> bool
    ensures { result ≡ is_side place }
{
    match place {
        Place::Cell(_) => false,
        Place::Side(_) => true,
    }
}
