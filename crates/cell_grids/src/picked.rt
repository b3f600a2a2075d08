// The cells that are picked of references.
ghost use Rattle.std.specs.Prelude.{◌≡◌, ◌<◌, ◌≤◌, ◌++◌, IfOk, OnOk, flat_map};
ghost use Rattle.cell_grids.specs.Full.{IsFullGrid};
ghost use Rattle.recalculation.specs.Looks.{cell_in, picked_cells};
ghost use Rattle.sheet_funcs.specs.Picks.{from_to};
ghost use Rattle.sheet_funcs.specs.Within.{IsWithin};

use crate::reference::Reference;
use cell_refs::Cell;
use memory::Memory;
use sheet_funcs::Pick;
use std::alloc::Global;

impl Reference {
    /// The cells of a part, row by row; none where there is no such part.
    pub fn cells_in(&self, alloc: Global, pick: Pick) -> Result<Vec<Cell>, Memory>
        requires { IsWithin self.now.rows self.now.columns pick }
        ensures cells { IfOk result (λ cells. cells.items ≡ picked_cells self.now pick) }
        ensures full { IsFullGrid self.now }
    {
        prove!(self.rows > 0 && self.cols > 0);
        let mut cells = Vec::new(alloc);
        push_picked(self, pick, &mut cells)?;
        Ok(cells)
    }
}

// Puts behind other cells those of a part of a reference.
fn push_picked(grid: &Reference, pick: Pick, to: &mut Vec<Cell>) -> Result<(), Memory>
    requires { IsWithin grid.now.rows grid.now.columns pick }
    ensures { OnOk result (to.new.items ≡ to.old.items ++ picked_cells grid.now pick) }
{
    let Pick::Part(top, left, bottom, right) = pick else {
        return Ok(());
    };
    prove!(bottom < grid.rows);
    for row in top..bottom + 1 {
        push_row(grid, row, left, right, to)?;
    }
    Ok(())
}

// Puts behind other cells those of a row, from one column to another.
fn push_row(
    grid: &Reference,
    row: u32,
    left: u32,
    right: u32,
    to: &mut Vec<Cell>,
) -> Result<(), Memory>
    requires row { row < grid.now.rows }
    requires order { left ≤ right }
    requires right { right < grid.now.columns }
    ensures { OnOk result (to.new.items
        ≡ to.old.items ++ flat_map (λ column. cell_in grid.now row column) (from_to left right)) }
{
    prove!(right < grid.cols);
    for column in left..right + 1 {
        to.push(grid.cell_at(row, column))?;
    }
    Ok(())
}
