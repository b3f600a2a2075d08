// The least cell without a form.
ghost use Rattle.std.specs.Prelude.{◌≡◌, ◌<◌};
ghost use Rattle.workbook.specs.Kinds.{book_of};
ghost use Rattle.form_extraction.specs.Places.{least_without, with_least, lesser};
ghost use Rattle.extract.specs.Knowing.{known_form};

use crate::known::Known;
use cell_refs::Cell;

/// The least of some cells that have no form.
pub(crate) fn least_without(known: &Known, cells: &[Cell]) -> Option<Cell>
    ensures { result ≡ least_without
        (known_form (book_of known.now.book.now) known.now.adj.now known.now.table.now) cells.now }
{
    let mut least = None;
    let mut place = cells.len();
    while place > 0 {
        place -= 1;
        least = with_least(known, cells[place], least);
    }
    least
}

// The lesser of a cell, if it has no form, and of another.
fn with_least(known: &Known, cell: Cell, least: Option<Cell>) -> Option<Cell>
    ensures { result ≡ with_least
        (known_form (book_of known.now.book.now) known.now.adj.now known.now.table.now) cell
        (known_form (book_of known.now.book.now) known.now.adj.now known.now.table.now cell) least }
{
    if known.has_form(cell) {
        return least;
    }
    Some(lesser(cell, least))
}

// The lesser of two cells.
fn lesser(cell: Cell, other: Option<Cell>) -> Cell
    ensures { result ≡ lesser cell other }
{
    match other {
        Some(other) if other <= cell => other,
        _ => cell,
    }
}
