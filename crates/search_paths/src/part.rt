ghost use Rattle.std.specs.Prelude.{◌≡◌, ℤ, pos, ◌+ℤ◌, Some};
ghost use Rattle.frac128.specs.Narrow.{IsNarrowWhole};
ghost use Rattle.searches.specs.Trees.{lower, upper};
ghost use Rattle.search_paths.specs.Steps.{split_of, step_of};
ghost use Rattle.search_paths.specs.Origins.{held_part, IsNarrowOrigin};

use crate::origin::{Origin, Side};
use std::marker::Model;

/// A part of a box: a decision is at most the floor, or at least the whole number above it.
#[derive(Drop)]
pub struct Part {
    decision: u16,
    is_upper: bool,
    floor: i128,
}

impl Model for Part {
    ghost use Rattle.searches.specs.Trees as trees;
    ghost use Rattle.search_paths.specs.Parts.{part_of, IsNarrowPart};

    ghost Value = { trees.Part };

    ghost view = { part_of };

    ghost invariant = { IsNarrowPart };
}

impl Part {
    /// The decision is at most the floor.
    pub fn lower(decision: u16, floor: i128) -> Part
        requires floor { IsNarrowWhole floor }
        requires above { IsNarrowWhole (floor +ℤ pos 1) }
        ensures { result ≡ lower decision floor }
    {
        Part {
            decision,
            is_upper: false,
            floor,
        }
    }

    /// The decision is at least the whole number above the floor.
    pub fn upper(decision: u16, floor: i128) -> Part
        requires floor { IsNarrowWhole floor }
        requires above { IsNarrowWhole (floor +ℤ pos 1) }
        ensures { result ≡ upper decision floor }
    {
        Part {
            decision,
            is_upper: true,
            floor,
        }
    }

    /// An equal part.
    pub fn copy(&self) -> Part
        ensures { result ≡ self.now }
    {
        Part {
            decision: self.decision,
            is_upper: self.is_upper,
            floor: self.floor,
        }
    }

    /// The decision, whether the part is the upper one, and the bound that it sets.
    pub fn step(&self) -> (u16, bool, i128)
        ensures step { result ≡ step_of self.now }
        ensures narrow { IsNarrowWhole result.2 }
    {
        if self.is_upper {
            return (self.decision, true, self.floor + 1);
        }
        (self.decision, false, self.floor)
    }

    /// The decision and the floor of the split of which it is a part.
    pub fn split(&self) -> (u16, i128)
        ensures split { result ≡ split_of self.now }
        ensures floor { IsNarrowWhole result.1 }
        ensures above { IsNarrowWhole (result.1 +ℤ pos 1) }
    {
        (self.decision, self.floor)
    }

    /// The part as it is held of a node.
    pub(crate) fn origin(&self, parent: usize) -> Origin
        ensures parent { result.parent ≡ parent }
        ensures part { held_part result ≡ Some self.now }
        ensures narrow { IsNarrowOrigin result }
    {
        if self.is_upper {
            return Origin {
                parent,
                decision: self.decision,
                side: Side::Upper,
                floor: self.floor,
            };
        }
        Origin {
            parent,
            decision: self.decision,
            side: Side::Lower,
            floor: self.floor,
        }
    }
}
