//! The tree of a search that has ended, as a certificate of its answer.
#![tactic(auto)]

mod leaf;
mod making;
mod nodes;
mod order;
mod places;
mod roots;
mod slots;
mod stop;
mod weight;

pub use making::tree;
pub use stop::TreeStop;
