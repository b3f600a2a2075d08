//! The paths of the nodes of a search, each held as its parent and its last part, and a box that is led from node to node.
#![tactic(auto)]

ghost use Rattle.search_paths.specs.Examples.{BoxesAreLed};

mod boxes;
mod origin;
mod part;
mod paths;
mod walk;

pub use part::Part;
pub use paths::Paths;

/// A box that is led along a path of four parts.
pub fn examples_hold()
    ensures { BoxesAreLed }
{}
