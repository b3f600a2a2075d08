//! The forms of cells and of sides: each over the forms of the cells at which it looks.
//! The main call is `form_of`. It goes over a formula's tree once and makes the form that the cell or side has while the decision cells are
//! open. `looked_at` lists the cells at which it looks. `FormTable` keeps the forms of some places, and `Steps` counts how many were made.
//! Below it stand `form_calls`, which makes the parts of a formula, and `dep_table`. Above it stands `needed_cells`.
//! Formulas are those of OpenFormula (OpenDocument 1.2 part 2). What has a form, and what is refused, is the program's own rule
//! (docs/FORMS.md).
#![tactic(auto)]

mod decided;
mod formula;
mod known;
mod least;
mod left;
mod looked;
mod place;
mod steps;
mod table;
mod texts;

pub use form_extraction::CellForm;
pub use looked::looked_at;
pub use place::form_of;
pub use steps::Steps;
pub use table::FormTable;
