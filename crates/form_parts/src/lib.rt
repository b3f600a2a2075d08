//! The parts of a formula while some decisions are open: numbers and texts, references, operators, and the functions that look at all
//! of their arguments.
#![tactic(auto)]

mod arguments;
mod called;
mod cells;
mod elements;
mod literals;
mod operators;
mod outcomes;
mod part;
mod references;

pub use arguments::{Values, all_looks, push_cells, push_looks, values_of};
pub use called::called_part;
pub use cells::{FormsOfCells, forms_of};
pub use elements::{grid_of, single_of};
pub use literals::{array_part, known_part};
pub use operators::{infix_part, minus_part, percent_part, plus_part};
pub use outcomes::{copy_outcome, outcome_by, refused_by};
pub use part::Part;
pub use references::{reference_part, table_part, unread};
