// What a lookup picks of a grid.

use cell_refs::ErrorKind;

/// A part of a grid, by its first row and column and its last ones, each from 0; or the error that there is no such part.
#[derive(Clone, Copy, Debug, PartialEq, Eq)]
pub enum Pick {
    /// Top, left, bottom and right.
    Part(u32, u32, u32, u32),
    Fault(ErrorKind),
}
