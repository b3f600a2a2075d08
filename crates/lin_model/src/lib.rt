//! Linear models of statements, their boxes and the standard programs of these.
#![tactic(auto)]

mod bounds;
mod building;
mod conditions;
mod fitting;
mod groups;
mod model;
mod rows;
mod same;
mod standard;
mod stop;
mod tightest;

pub use bounds::BoundBox;
pub use building::linear;
pub use conditions::{Condition, Conditions};
pub use groups::is_in;
pub use linear_programs::Standard;
pub use memory::Memory;
pub use model::{FormRow, LinModel};
pub use optimality::{Goal, Relation};
pub use stop::BuildStop;
