// What is shown of a cell.

use cell_refs::Cell;
use sheet_model::Value;

/// The value of a cell, or the least wide cell at which it looks.
#[derive(Debug, Drop)]
pub enum Shown {
    Is(Value),
    /// A number in the calculation of this cell does not fit 128 bits.
    Wide(Cell),
}
