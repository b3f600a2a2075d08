//! Pickers: which of the nodes of a branch-and-bound search that wait is opened next (Chvatal, Linear Programming, chapter 20 has the search).
#![tactic(auto)]

mod best;
mod depth;
mod info;
mod oldest;
mod picker;

pub use best::Best;
pub use depth::Depth;
pub use info::{NodeEvent, NodeInfo};
pub use oldest::Oldest;
pub use picker::Picker;
