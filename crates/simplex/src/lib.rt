//! The simplex method by Bland's rule: it ends for each program, and each answer has its proof.
#![tactic(auto)]

mod answer;
mod begin;
mod choose;
mod enter;
mod leave;
mod read;
mod runs;

pub use answer::{LpAnswer, LpStop};
pub use choose::{Next, choose_next};
pub use read::{cell_change, cell_value, column_with, direction, point, row_multipliers};
pub use runs::{Work, make_pivot, resume, solve};
