// Where a value stands: in a cell, or in the right side of a constraint.

use crate::Cell;

/// A cell, or the right side of a constraint that is an expression, by the constraint's number.
#[derive(Clone, Copy, Debug, PartialEq, Eq)]
pub enum Place {
    Cell(Cell),
    Side(u16),
}
