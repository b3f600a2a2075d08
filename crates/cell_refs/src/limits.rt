// How large a workbook may be.

/// How many rows a sheet has.
pub const ROWS: u16 = 4096;

/// How many columns a sheet has.
pub const COLUMNS: u16 = 1024;

/// How many sheets there may be.
pub const SHEETS: usize = 32;

/// How many bytes a text may have.
pub const TEXT_BYTES: u32 = 8192;

/// How many cells may have a text.
pub const TEXTS: usize = 65536;

/// How many texts may begin as a formula.
pub const FORMULAS: usize = 16384;

/// How many names there may be.
pub const NAMES: usize = 32768;

/// How many bytes a file may have, and a script.
pub const FILE_BYTES: usize = 16777216;
