//! Numbers written into the cells to be decided, so that every cell is then what it was with these numbers in their place.
//! The main call is `put`. It writes all of the numbers or none: a numeral where the number is whole or has a short decimal, and else a
//! formula such as `=1/3`. The contract says that recalculation keeps each value and each side.
//! Below it stand `workbook`, whose `set_all` it calls, `form_extraction`, and `written_cells`, the law behind it. Above it stand
//! `sheet_solving` and `sheet_quick`.
//! How a number is spelled in a cell is the program's own rule (docs/NUMBERS.md).
#![tactic(auto)]

mod texts;
mod writing;

pub use workbook::AllFault as PutFault;
pub use writing::put;
