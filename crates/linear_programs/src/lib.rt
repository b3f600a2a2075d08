//! Linear programs in standard form, and the leaf proofs that settle one: multipliers, or a point with a direction.
#![tactic(auto)]

ghost use Rattle.linear_programs.specs.Program.{LeafProofsHold};

mod inequality;
mod standard;

pub use inequality::{Inequality, are_regular};
pub use standard::Standard;

/// A leaf proof holds: it bounds the objective at each point, leaves no point, or leads on from each.
pub fn leaf_proofs_hold()
    ensures { LeafProofsHold }
{}
