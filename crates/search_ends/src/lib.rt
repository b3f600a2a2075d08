//! What becomes of a node of a search at the end of its program's run, and how the run goes on until then.
#![tactic(auto)]

mod alike;
mod broken;
mod ends;
mod parting;
mod reading;

pub use ends::{NodeEnd, NodeRun, Pivot, run_of};
