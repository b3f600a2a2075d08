// Strips of rows.
ghost use Rattle.std.specs.Prelude.{◌≡◌, ◌&&◌, nat_le};

use cell_refs::Cell;

/// Rows of a column to which the formula of a cell refers: the first and the last, from 0.
#[derive(Clone, Copy, Debug, PartialEq, Eq, PartialOrd, Ord)]
pub struct Strip {
    pub cell: Cell,
    pub top: u16,
    pub bottom: u16,
}

impl Strip {
    /// Whether a row is among its rows.
    pub fn has_row(&self, row: u16) -> bool
        ensures { result ≡ (nat_le self.now.top row && nat_le row self.now.bottom) }
    {
        self.top <= row && row <= self.bottom
    }
}
