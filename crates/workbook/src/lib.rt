//! Workbooks: the texts of cells, the names, and what the texts say.
//! The main type is `Workbook`, which has the sheets, the texts of their cells, and the names. `Workbook::open` reads it from the files, or
//! answers with the first fault in a stated order. `set`, `set_all` and `clear` edit cells, `name` and `unname` edit names; after a fault
//! nothing has changed. `content`, `kind` and `tree` tell what a cell has, and `text_of` the text of a name.
//! Below it stand `sheet_csv` (records of files), `formula_parser` (trees of formulas) and `recalculation` (what cells are worth). Above it
//! stand `solver_names`, `dep_table`, `write_back`, `saved_sheets`, `made_up_books`, `run_inputs` and `text_laws`.
//! Formulas are those of OpenFormula (OpenDocument 1.2 part 2, section 5), and files are CSV as the `csv` crate reads it. The file of
//! names, the kinds of constants and the order of faults are the program's own (docs/FORMATS.md).
#![tactic(auto)]

mod asked;
mod change;
mod edited;
mod fault;
mod file;
mod gather;
mod held;
mod kind;
mod named;
mod names;
mod naming;
mod open;
mod parts;
mod renamed;
mod renaming;
mod say;
mod several;
mod text_cell;
mod users;
mod uses;
mod words;
mod workbook;

pub use cell_refs::{Adj, DECISIONS, Place};
pub use fault::{AllFault, EditFault, OpenFault};
pub use file::File;
pub use kind::Kind;
pub use open::{files_open_in_one_way, names_are_saved_as_found, sheet_in};
pub use renaming::unname_fault;
pub use text_cell::TextCell;
pub use words::behind_equals;
pub use workbook::Workbook;
