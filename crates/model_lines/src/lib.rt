//! A linear model as it is printed, and its lines.
#![tactic(auto)]

mod decisions;
mod groups;
mod lines;
mod print;

pub use lines::ModelLines;
