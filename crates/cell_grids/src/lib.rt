//! References: cells in rows and columns, and what is picked of them.
#![tactic(auto)]

mod areas;
mod columns;
mod picked;
mod reference;

pub use areas::push_cells;
pub use reference::Reference;
