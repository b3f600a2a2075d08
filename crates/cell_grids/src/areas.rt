// The cells of areas.
ghost use Rattle.std.specs.Prelude.{◌≡◌, ◌++◌, ◌≤◌, IfOk, OnOk, flat_map};
ghost use Rattle.cell_grids.specs.AreaRows.{row_cells};
ghost use Rattle.cell_refs.specs.Areas.{bottom, cells_of};

use cell_refs::{Area, Cell};
use memory::Memory;
use std::alloc::Global;

/// The cells of some areas, one behind the other.
pub(crate) fn all_cells(alloc: Global, areas: &[Area]) -> Result<Vec<Cell>, Memory>
    ensures { IfOk result (λ cells. cells.items ≡ flat_map cells_of areas.now) }
{
    let mut cells = Vec::new(alloc);
    for area in areas {
        push_cells(area, &mut cells)?;
    }
    Ok(cells)
}

/// Puts the cells of an area behind others, row by row.
pub fn push_cells(area: &Area, to: &mut Vec<Cell>) -> Result<(), Memory>
    ensures { IfOk result (λ _. to.new.items ≡ to.old.items ++ cells_of area.now) }
{
    to.reserve(area.len() as usize)?;
    for row in area.top()..area.bottom() + 1 {
        push_row(area, row, to)?;
    }
    Ok(())
}

// Puts the cells of a row of an area behind others.
fn push_row(area: &Area, row: u16, to: &mut Vec<Cell>) -> Result<(), Memory>
    ensures { OnOk result (to.new.items ≡ to.old.items ++ row_cells area.now row) }
{
    let sheet = area.sheet();
    for col in area.left()..area.right() + 1 {
        to.push(Cell { sheet, row, col })?;
    }
    Ok(())
}
