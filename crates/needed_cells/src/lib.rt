//! The cells that the model of a sheet needs, over the forms of all places.
//! The main call is `needed_cells`. It begins with the objective and the sides, and follows from each needed cell to those at which it
//! looks, along a list that grows. Of a formula in which no function chooses or picks they are all to which it refers; else they are found
//! by `looked_at` of `extract`.
//! Below it stand `form_needs`, which defines what is needed, `plain_formulas` and `extract`. Above it stands `needed_forms`.
//! What a formula looks at is the program's own rule (docs/RECALCULATION.md).
#![tactic(auto)]

mod found;
mod looks;
mod needed;
mod referred;
mod sheet;

pub use extract::{FormTable, Steps, form_of};
pub use needed::needed_cells;
