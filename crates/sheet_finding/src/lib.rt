//! How a search over the model of a sheet ends, before anything is written.
//! The main call is `find`. It searches a model with a budget of units, by nodes that the picker chooses, and answers with what is `Found`:
//! an optimum whose numbers are still to be written, or another answer. `run_whole` spends the budget of a search.
//! Below it stands `sheet_solving`, whose words it uses for ends and stops. Above it stand `sheet_certificates` and `sheet_quick`, which
//! both search without writing first.
//! The search is that of `branch_bound`.
#![tactic(auto)]

mod finding;
mod running;

pub use finding::{Found, find};
pub use running::run_whole;
