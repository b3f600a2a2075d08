//! The forms of the cells of a workbook over some decision cells. This crate has the definitions and their laws.
#![tactic(auto)]

mod forms;

ghost use Rattle.form_extraction.specs.Examples.{Hold, blocks, picks, refusals};
ghost use Rattle.form_extraction.specs.Laws.{AffineIsTheNumber, CircleIsCircular, CircularWhereCircle, DecisionIsItself, DependsOnLooked, FormEquation, FormIsTheValue, KnownIsTheValue, MalformedIsMalformed, TestIsTrueWhereItHolds};
ghost use Rattle.form_extraction.specs.Looked.{BlockedByLeast, LookedIsReferred, SideIsTheValue, SideOfCircle, SideOfNoCircle, SideRefusalsAreRight};
ghost use Rattle.form_extraction.specs.Refuted.{RefusalsAreRight};

pub use forms::{CellForm, Outcome, Why};

/// Under every assignment of numbers to the decision cells the form of a cell has the value of the cell.
pub fn value_laws()
    ensures value { FormIsTheValue }
    ensures known { KnownIsTheValue }
    ensures number { AffineIsTheNumber }
    ensures test { TestIsTrueWhereItHolds }
{}

/// The form of a cell is what its text makes of the forms of the others, and depends on those alone at which it looks.
pub fn layer_laws()
    ensures equation { FormEquation }
    ensures looked { DependsOnLooked }
{}

/// A part that is refused as not affine bends, and one that is refused as undecided varies.
pub fn refusal_laws()
    ensures right { RefusalsAreRight }
{}

/// Forms of some formulas and what they look at, worked out by hand.
pub fn examples_hold()
    ensures refusals { Hold refusals }
    ensures blocks { Hold blocks }
    ensures picks { Hold picks }
{}

/// What cells look at, and that a blocked cell names the least of these that has no form.
pub fn looking_laws()
    ensures referred { LookedIsReferred }
    ensures least { BlockedByLeast }
{}

/// Sides, which are expressions of their own.
pub fn side_laws()
    ensures value { SideIsTheValue }
    ensures refusals { SideRefusalsAreRight }
    ensures circle { SideOfCircle }
    ensures no_circle { SideOfNoCircle }
{}

/// Decision cells, circular cells and malformed ones.
pub fn state_laws()
    ensures decision { DecisionIsItself }
    ensures circular { CircleIsCircular }
    ensures circle { CircularWhereCircle }
    ensures malformed { MalformedIsMalformed }
{}
