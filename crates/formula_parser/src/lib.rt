//! The trees of formulas from their texts.
#![tactic(auto)]

mod array;
mod branch;
mod call;
mod corner;
mod fault;
mod formula;
mod laws;
mod leaf;
mod name;
mod number;
mod reading;
mod reference;
mod setting;
mod signs;
mod stop;
mod symbols;
mod union;
mod words;

pub use fault::ParseFault;
pub use formula::parse;
pub use laws::trees_are_spelled;
pub use name::parse_reference;
