//! The dictionary of a linear program: its rows over its columns, and exact pivots between them.
#![tactic(auto)]

mod dict;
mod entries;
mod first;
mod making;
mod numbers;
mod objectives;
mod products;
mod row;
mod rows;
mod table;

pub use dict::Dict;
pub use first::start;
pub use row::Row;
