// What refers to circular cells.
ghost use Rattle.std.specs.Prelude.{◌≡◌, IfOk};
ghost use Rattle.std.specs.List.{list_any};
ghost use Rattle.cell_refs.specs.Areas.{within};
ghost use Rattle.needed_forms.specs.FromFormExtraction.{refers_to_circle};
ghost use Rattle.extract_incr.specs.Settling.{AreCircular, leaf_in};
ghost use Rattle.workbook.specs.Kinds.{book_of};

use cell_refs::{Area, Cell};
use formula_ast::Expr;
use memory::Memory;
use std::alloc::Global;
use workbook::{Adj, Workbook};

/// Whether a tree refers to one of the circular cells.
pub(crate) fn refers_to_circle(
    alloc: Global,
    book: &Workbook,
    adj: &Adj,
    tree: &Expr,
    circular: &[Cell],
) -> Result<bool, Memory>
    requires { AreCircular (book_of book.now) adj.now circular.now }
    ensures { IfOk result (λ found. found
        ≡ refers_to_circle (book_of book.now) (leaf_in adj.now) tree.now) }
{
    let areas = tree.references(alloc)?;
    Ok(is_any_within(areas.as_slice(), circular))
}

/// Whether one of some cells is within one of some areas.
pub(crate) fn is_any_within(areas: &[Area], cells: &[Cell]) -> bool
    ensures { result ≡ list_any (λ b. list_any (λ area. within area b) areas.now) cells.now }
{
    cells.iter().any(|cell| is_within(areas, *cell))
}

// Whether a cell is within one of some areas.
fn is_within(areas: &[Area], cell: Cell) -> bool
    ensures { result ≡ list_any (λ area. within area cell) areas.now }
{
    areas.iter().any(|area| area.has(cell))
}
