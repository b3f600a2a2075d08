//! The places that the model of a sheet needs, and the first reason why there is none, over the forms of all places.
//! The main call is `first_refusal`. It answers with the least malformed cell among the needed places; else with the least circular place,
//! else the least refused one, else the least side or objective that is no number; or with nothing.
//! Below it stands `needed_cells`, which finds the cells. Above it stands `extract_incr`, which keeps the forms.
//! The order of these reasons is the program's own rule, and `form_needs` has its definition.
#![tactic(auto)]

mod least;
mod places;
mod refusal;
mod stage;
mod told;

pub use form_extraction::CellForm;
pub use form_needs::FormRefusal;
pub use needed_cells::{FormTable, Steps, form_of};
pub use refusal::first_refusal;
