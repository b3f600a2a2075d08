// What places look at, over the forms of all of them.
ghost use Rattle.std.specs.Prelude.{◌≡◌, ◌↔◌, Contains, IfOk, Some, option_map};
ghost use Rattle.std.specs.List.{list_any};
ghost use Rattle.cell_refs.specs.declared.cell.Cell.{Cell};
ghost use Rattle.form_needs.specs.Needed.{PlaceLooksAt};
ghost use Rattle.needed_cells.specs.Finding.{asked, has_circle, is_kept_circular, place_tree, unless_decided};
ghost use Rattle.needed_cells.specs.Settled.{IsSettled};
ghost use Rattle.recalculation.specs.Entries.{entry};
ghost use Rattle.form_needs.specs.FromSheetProblems.{tree_of};
ghost use Rattle.workbook.specs.Contents.{tree_of as tree_said};
ghost use Rattle.workbook.specs.Kinds.{book_of};
ghost use Rattle.cell_refs.specs.declared.place.Place.TheVariants as place;
ghost use Rattle.form_extraction.specs.Places.{numbered_in};

use crate::referred::referred_by;
use crate::sheet::Sheet;
use cell_refs::Cell;
use extract::{FormTable, looked_at};
use form_extraction::CellForm;
use formula_ast::Expr;
use memory::Memory;
use plain_formulas::is_plain;
use std::alloc::Global;
use workbook::{Adj, Place, Workbook};

/// The cells at which a place looks.
pub(crate) fn looks_of(alloc: Global, sheet: &Sheet, place: Place) -> Result<Vec<Cell>, Memory>
    requires settled { IsSettled
        (book_of sheet.now.book.now) sheet.now.sides.now sheet.now.adj.now sheet.now.forms.now }
    ensures { IfOk result (λ looks. (b : Cell) → Contains looks.items b ↔ PlaceLooksAt (asked
        sheet.now.book.now sheet.now.sides.now sheet.now.adj.now sheet.now.roots.now) place b) }
{
    match tree_at(sheet, place) {
        Some(tree) => looks_through(alloc, sheet, place, tree),
        None => Ok(Vec::new(alloc)),
    }
}

// The cells at which a place with this tree looks: of a plain one all to which it refers, which are known without its form.
fn looks_through(
    alloc: Global,
    sheet: &Sheet,
    place: Place,
    tree: &Expr,
) -> Result<Vec<Cell>, Memory>
    requires settled { IsSettled
        (book_of sheet.now.book.now) sheet.now.sides.now sheet.now.adj.now sheet.now.forms.now }
    requires tree { place_tree
        (asked sheet.now.book.now sheet.now.sides.now sheet.now.adj.now sheet.now.roots.now) place
        ≡ Some tree.now }
    ensures { IfOk result (λ looks. (b : Cell) → Contains looks.items b ↔ PlaceLooksAt (asked
        sheet.now.book.now sheet.now.sides.now sheet.now.adj.now sheet.now.roots.now) place b) }
{
    if is_plain(tree) {
        return referred_by(alloc, sheet.book, sheet.adj, tree);
    }
    looks_from(alloc, sheet, place, tree)
}

// The cells at which a place with any tree looks.
fn looks_from(alloc: Global, sheet: &Sheet, place: Place, tree: &Expr) -> Result<Vec<Cell>, Memory>
    requires settled { IsSettled
        (book_of sheet.now.book.now) sheet.now.sides.now sheet.now.adj.now sheet.now.forms.now }
    requires tree { place_tree
        (asked sheet.now.book.now sheet.now.sides.now sheet.now.adj.now sheet.now.roots.now) place
        ≡ Some tree.now }
    ensures { IfOk result (λ looks. (b : Cell) → Contains looks.items b ↔ PlaceLooksAt (asked
        sheet.now.book.now sheet.now.sides.now sheet.now.adj.now sheet.now.roots.now) place b) }
{
    if is_kept_circular(sheet.forms, place) {
        let referred = referred_by(alloc, sheet.book, sheet.adj, tree)?;
        if has_circle(sheet.forms, place, &referred) {
            return Ok(referred);
        }
    }
    let looks = looked_at(alloc, sheet.book, sheet.adj, place, tree, sheet.forms)?;
    Ok(looks)
}

// The tree of a side, or of a formula cell that isn't to be decided.
fn tree_at<'a>(sheet: &Sheet<'a>, place: Place) -> Option<&'a Expr>
    ensures { option_map (λ t. t.now) result ≡ place_tree
        (asked sheet.now.book.now sheet.now.sides.now sheet.now.adj.now sheet.now.roots.now) place }
{
    match place {
        Place::Cell(cell) => tree_in(sheet.book, sheet.adj, cell),
        Place::Side(number) => tree_of(sheet.sides, number),
    }
}

// The tree of a formula cell that isn't to be decided.
fn tree_in<'a>(book: &'a Workbook, adj: &Adj, cell: Cell) -> Option<&'a Expr>
    ensures { option_map (λ t. t.now) result
        ≡ unless_decided (numbered_in adj.now cell) (tree_said (entry (book_of book.now) cell)) }
{
    match adj.find(cell) {
        Some(_) => None,
        None => book.tree(cell),
    }
}

// The tree of a side, the first of its number.
fn tree_of(sides: &[(u16, Expr)], number: u16) -> Option<&Expr>
    ensures { option_map (λ t. t.now) result ≡ tree_of sides.now number }
{
    for side in sides {
        if side.0 == number {
            return Some(&side.1);
        }
    }
    None
}

// Whether it says of a place that it is circular.
fn is_kept_circular(forms: &FormTable, place: Place) -> bool
    ensures { result ≡ is_kept_circular forms.now place }
{
    match forms.get(place) {
        Some(CellForm::Circular) => true,
        _ => false,
    }
}

// Whether a place that is kept as circular stands in a circle, or refers to such a cell among these, to which it refers.
fn has_circle(forms: &FormTable, place: Place, referred: &[Cell]) -> bool
    ensures { result ≡ has_circle forms.now place referred.now }
{
    match place {
        Place::Cell(_) => true,
        Place::Side(_) => has_circular(forms, referred),
    }
}

// Whether one of some cells is kept as circular.
fn has_circular(forms: &FormTable, cells: &[Cell]) -> bool
    ensures { result ≡ list_any (λ b. is_kept_circular forms.now (place.Cell b)) cells.now }
{
    for &cell in cells {
        if is_kept_circular(forms, Place::Cell(cell)) {
            return true;
        }
    }
    false
}
