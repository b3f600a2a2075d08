// References that are kept of a workbook and follow what its cells say.
ghost use Rattle.std.specs.Prelude.{◌≡◌, IfOk, None, OnErr, OnOk};
ghost use Rattle.dep_table.specs.References.{AreReferencesOf, areas_said};
ghost use Rattle.kept_book.specs.References.{AreKept, AreKeptBut, HasFormula, with_areas};
ghost use Rattle.recalculation.specs.Entries.{entry};
ghost use Rattle.recalculation.specs.Walks.{is_formula};
ghost use Rattle.std.specs.Prelude.{true};
ghost use Rattle.workbook.specs.Kinds.{book_of};

use cell_refs::{Cell, TEXTS};
use dep_table::Deps;
use memory::Memory;
use std::alloc::Global;
use workbook::Workbook;

/// The references that are kept, or where none are those that are found now.
pub(crate) fn references_of(
    kept: Option<Deps>,
    alloc: Global,
    book: &Workbook,
) -> Result<Deps, Memory>
    requires { AreKept kept book.now }
    ensures references { IfOk result (λ d. AreReferencesOf d (book_of book.now)) }
    ensures none { OnErr result (kept ≡ None) }
{
    match kept {
        Some(references) => Ok(references),
        None => Deps::open(alloc, book),
    }
}

/// Keeps the references of what each of these cells says, in the place of those that were kept for it.
pub(crate) fn follow_all(deps: &mut Deps, book: &Workbook, cells: &[Cell]) -> Result<(), Memory>
    requires { AreKeptBut cells.now book.now deps.old }
    ensures followed { OnOk result (AreReferencesOf deps.new (book_of book.now)) }
    ensures some { OnErr result (HasFormula cells.now book.now) }
{
    for cell in cells {
        follow(deps, book, *cell)?;
    }
    Ok(())
}

// Keeps the references of what a cell says. There are never so many formulas that the references of one more would be too many.
fn follow(deps: &mut Deps, book: &Workbook, cell: Cell) -> Result<(), Memory>
    ensures followed { OnOk result (deps.new
        ≡ with_areas deps.old cell (areas_said (entry (book_of book.now) cell))) }
    ensures some { OnErr result (is_formula (entry (book_of book.now) cell) ≡ true) }
{
    let Some(tree) = book.tree(cell) else {
        deps.take(cell);
        return Ok(());
    };
    if deps.len() >= TEXTS {
        return Err(Memory);
    }
    deps.put(cell, tree)
}
