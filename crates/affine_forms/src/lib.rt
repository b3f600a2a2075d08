//! Affine forms over decisions, with their operations on narrow numbers.
#![tactic(auto)]

mod comparing;
mod form;
mod laws;
mod merging;
mod rel;
mod steps;
mod stop;
mod sums;
mod terms;

pub use form::Form;
pub use laws::{
    coefficient_laws, equality_laws, form_laws, movement_laws, multiple_laws, narrow_laws,
    relation_laws, worth_laws,
};
pub use memory::Memory;
pub use rel::Rel;
pub use stop::FormStop;
