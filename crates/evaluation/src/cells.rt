// The cells to which formulas refer.
ghost use Rattle.std.specs.Prelude.{◌≡◌, IfOk, IfSome, Option, length, option_map};
ghost use Rattle.cell_refs.specs.declared.cell.Cell.{Cell};
ghost use Rattle.cell_refs.specs.Areas.{cells_of};
ghost use Rattle.recalculation.specs.Looks.{elements};
ghost use Rattle.sheet_model.specs.declared.value.Value.{Value};

use cell_refs::{Area, Cell};
use sheet_model::{Memory, Value};
use std::alloc::Global;

/// The values of cells, as far as they are known.
pub trait Cells {
    /// The value of each cell, where it is known.
    ghost known: { Self → Cell → Option Value };

    /// The value of a cell, if it is known.
    fn value(&self, alloc: Global, cell: Cell) -> Result<Option<Value>, Memory>
        ensures { IfOk result (λ value. value ≡ known self.now cell) };

    /// The values of the cells of an area, row by row, if all are known.
    fn values(&self, alloc: Global, area: &Area) -> Result<Option<Vec<Value>>, Memory>
        ensures values { IfOk result (λ found. option_map (λ values. values.items) found
            ≡ elements (known self.now) (cells_of area.now)) }
        ensures count { IfOk result (λ found.
            IfSome found (λ values. length values.items ≡ length (cells_of area.now))) };
}
