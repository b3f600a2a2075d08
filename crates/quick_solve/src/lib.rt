//! Quick models: linear models for values of parameters, whose forms are found once.
#![tactic(auto)]

mod forms;
mod putting;
mod quick;
mod stop;

pub use quick::QuickModel;
pub use stop::QuickStop;
