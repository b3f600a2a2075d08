//! Places of a workbook: sheets and cells, and how an address is read and printed.
#![tactic(auto)]

mod address;
mod adj;
mod cell;
mod error_kind;
mod limits;
mod names;
mod op;
mod place;
mod print;
mod sheet;
mod span;
mod units;

pub use address::{read_address, skip_dollar, without_dollar};
pub use adj::{Adj, DECISIONS};
pub use cell::{Area, Cell, SheetId};
pub use error_kind::ErrorKind;
pub use limits::{COLUMNS, FILE_BYTES, FORMULAS, NAMES, ROWS, SHEETS, TEXT_BYTES, TEXTS};
pub use memory::Memory;
pub use names::{NameFault, SheetNames};
pub use op::Op;
pub use place::Place;
pub use print::{print_address, print_cell};
pub use sheet::{sheet_name, sheets_are_spelled};
pub use span::Span;
pub use units::{MOST_UNITS, number_up_to, units_in};
