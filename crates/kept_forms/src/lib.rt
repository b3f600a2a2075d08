//! The forms that are kept of at most eight sheets while cells are edited and commands need them.
//! The main type is `FormTables`. `settle` makes the forms that are missing of a sheet, or a table of them anew where its decision cells or
//! the trees of its right sides have changed. `mark` drops what an edit touches. `Linked` is a workbook with its references.
//! Below it stand `extract_incr`, which has the forms of one sheet, `same_trees`, and `kept_tables`, which defines what is kept. Above it
//! stands `sheet_linear_model`.
//! Which sheet makes room for a ninth is the program's own rule.
#![tactic(auto)]

mod form_tables;
mod places;
mod sheet_table;

pub use extract_incr::{Forms, Steps};
pub use form_tables::FormTables;
pub use sheet_table::Linked;
