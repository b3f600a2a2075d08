//! The value of a formula over those of the cells, and the cells at which it looks.
#![tactic(auto)]

mod calls;
mod cells;
mod choices;
mod copy;
mod formula;
mod literals;
mod looked;
mod looks;
mod operators;
mod part;
mod referred;
mod values;

pub use cells::Cells;
pub use formula::evaluate;
pub use looked::Looks;
pub use part::Part;
