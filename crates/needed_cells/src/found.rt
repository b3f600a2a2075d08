// Sets of found cells that grow.
ghost use Rattle.std.specs.Prelude.{◌∷◌, OnOk, []};
ghost use Rattle.needed_cells.specs.Finding.{AreAdded};

use cell_refs::Cell;
use dep_table::CellSet;
use memory::Memory;

/// Adds cells to those that are found, and the new ones to those that are still to be followed.
pub(crate) fn add_all(
    cells: &[Cell],
    found: &mut CellSet,
    pending: &mut Vec<Cell>,
) -> Result<(), Memory>
    ensures { OnOk result
        (AreAdded cells.now found.old pending.old.items found.new pending.new.items) }
{
    for &cell in cells {
        add(cell, found, pending)?;
    }
    Ok(())
}

// Adds one.
fn add(cell: Cell, found: &mut CellSet, pending: &mut Vec<Cell>) -> Result<(), Memory>
    ensures { OnOk result
        (AreAdded (cell ∷ []) found.old pending.old.items found.new pending.new.items) }
{
    if found.has(cell) {
        return Ok(());
    }
    pending.push(cell)?;
    found.add(cell)?;
    Ok(())
}
