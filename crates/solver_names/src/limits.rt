// How much the names of a sheet may state.

/// How many constraints there may be.
pub const MOST_CONSTRAINTS: u16 = 256;

/// How many cells may be decided.
pub const MOST_DECISIONS: usize = 512;

/// How many rows the constraints may have together, each with one cell on its left.
pub const MOST_ROWS: usize = 256;
