//! Trees of formulas: what a formula says, with the place of each part in its text.
#![tactic(auto)]

mod expr;
mod func;

pub use expr::{Expr, Node};
pub use func::{Func, counts};
