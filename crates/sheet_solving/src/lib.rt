//! The model of a sheet solved by a search, and its optimum written back.
//! The main type is `OpenSearch`, a search that can be cut and gone on with. `slice` spends units of it, reads its end and writes an
//! optimum; `solve` begins one and spends its whole budget.
//! Below it stand `sheet_linear_model`, which makes the model, `branch_bound`, which searches, and `write_back`. Above it stand `kept_book`
//! and `sheet_finding`.
//! The search is branch and bound over the simplex method (Chvátal, Linear Programming, chapters 2 and 3). Units and budgets are the
//! program's own.
#![tactic(auto)]

mod open_search;
mod path;
mod searched;
mod slicing;
mod solving;
mod told;

pub use open_search::OpenSearch;
pub use path::by_cells;
pub use searched::Allowed;
pub use sheet_linear_model::{FormTables, Linked, NoModel, Prepared, Steps, model_lines, prepare};
pub use slicing::{slice, tell_stop};
pub use solving::solve;
pub use told::objective_value;
