// What places look at.
ghost use Rattle.std.specs.Prelude.{◌≡◌, ◌↔◌, Contains, IfOk, None, false};
ghost use Rattle.std.specs.List.Sorted.{IsStrictlySortedBy};
ghost use Rattle.cell_refs.specs.Cells.{cell_cmp};
ghost use Rattle.cell_refs.specs.declared.cell.Cell.{Cell};
ghost use Rattle.workbook.specs.Kinds.{book_of};
ghost use Rattle.extract.specs.Places.{HasForms, IsTreeOf, PlaceLooksAt, decision_at, is_in_circle};
ghost use Rattle.form_extraction.specs.Places.{numbered_in};

use crate::decided::decision_at;
use crate::formula::form_part;
use crate::known::Known;
use crate::table::FormTable;
use crate::texts::texts_among;
use cell_refs::Cell;
use formula_ast::Expr;
use memory::Memory;
use std::alloc::Global;
use workbook::{Adj, Place, Workbook};

/// The cells with a text that aren't to be decided at which a cell looks, or a side, the least first, each once; a cell to be decided
/// looks at none. It is no step.
pub fn looked_at(
    alloc: Global,
    book: &Workbook,
    adj: &Adj,
    place: Place,
    tree: &Expr,
    got: &FormTable,
) -> Result<Vec<Cell>, Memory>
    requires tree { IsTreeOf (book_of book.now) place tree.now }
    requires free { is_in_circle (book_of book.now) (numbered_in adj.now) place tree.now ≡ false }
    requires forms { HasForms (book_of book.now) (numbered_in adj.now) got.now tree.now }
    ensures each { IfOk result (λ found. (b : Cell) → Contains found.items b
        ↔ PlaceLooksAt (book_of book.now) (numbered_in adj.now) place tree.now b) }
    ensures sorted { IfOk result (λ found. IsStrictlySortedBy cell_cmp found.items) }
{
    match decision_at(adj, place) {
        Some(_) => Ok(Vec::new(alloc)),
        None => looked_from(alloc, book, adj, place, tree, got),
    }
}

// The cells at which a formula cell that isn't to be decided looks, or a side.
fn looked_from(
    alloc: Global,
    book: &Workbook,
    adj: &Adj,
    place: Place,
    tree: &Expr,
    got: &FormTable,
) -> Result<Vec<Cell>, Memory>
    requires tree { IsTreeOf (book_of book.now) place tree.now }
    requires undecided { decision_at (numbered_in adj.now) place ≡ None }
    requires free { is_in_circle (book_of book.now) (numbered_in adj.now) place tree.now ≡ false }
    requires forms { HasForms (book_of book.now) (numbered_in adj.now) got.now tree.now }
    ensures each { IfOk result (λ found. (b : Cell) → Contains found.items b
        ↔ PlaceLooksAt (book_of book.now) (numbered_in adj.now) place tree.now b) }
    ensures sorted { IfOk result (λ found. IsStrictlySortedBy cell_cmp found.items) }
{
    let known = Known {
        book,
        adj,
        table: got,
    };
    let part = form_part(alloc, &known, tree)?;
    let found = texts_among(alloc, book, adj, part.looks())?;
    Ok(found)
}
