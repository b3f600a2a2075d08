// The columns of references.
ghost use Rattle.std.specs.Prelude.{◌≡◌, ◌<◌, ◌++◌, IfOk, OnOk, length};
ghost use Rattle.recalculation.specs.Looks.{column_cells, exchanged};

use crate::reference::Reference;
use cell_refs::Cell;
use memory::Memory;
use std::alloc::Global;

impl Reference {
    /// The cells of the first column.
    pub fn first_column(&self, alloc: Global) -> Result<Vec<Cell>, Memory>
        ensures cells { IfOk result (λ keys. keys.items ≡ column_cells self.now 0) }
        ensures count { IfOk result (λ keys. length keys.items ≡ self.now.rows) }
    {
        prove!(self.cols > 0);
        let mut keys = Vec::new(alloc);
        push_column(self, 0, &mut keys)?;
        Ok(keys)
    }

    /// The reference with rows and columns exchanged.
    pub fn transpose(&self, alloc: Global) -> Result<Reference, Memory>
        ensures { IfOk result (λ across. across ≡ exchanged self.now) }
    {
        let cells = exchanged_cells(alloc, self)?;
        Ok(Reference {
            rows: self.cols,
            cols: self.rows,
            cells,
        })
    }
}

// Puts the cells of a column behind others.
fn push_column(grid: &Reference, column: u32, to: &mut Vec<Cell>) -> Result<(), Memory>
    requires { column < grid.now.columns }
    ensures { OnOk result (to.new.items ≡ to.old.items ++ column_cells grid.now column) }
{
    for row in 0..grid.rows {
        to.push(grid.cell_at(row, column))?;
    }
    Ok(())
}

// The cells of the exchanged rows and columns.
fn exchanged_cells(alloc: Global, grid: &Reference) -> Result<Vec<Cell>, Memory>
    ensures { IfOk result (λ cells. cells.items ≡ (exchanged grid.now).cells) }
{
    let mut cells = Vec::new(alloc);
    for column in 0..grid.cols {
        push_column(grid, column, &mut cells)?;
    }
    Ok(cells)
}
