//! Which forms of a workbook's places an edit changes: those of the places alone that it touches. This crate has the
//! definitions and their laws.
#![tactic(auto)]

ghost use Rattle.touched_places.specs.Examples.{Hold, HoldBehind, changed_cost, changed_label, circular_cells, together_before, together_behind};
ghost use Rattle.touched_places.specs.Laws.{DecisionsSayNothing, EditsInARow, FormDependsOnReached, SeveralEdits, SideDependsOnReached, TextsDifferAtOne, TouchedBeforeAndBehind, TouchesWhatIsTouched, UntouchedBehind, UntouchedKeepTheirForms, UntouchedLookTheSame};

/// The form of a cell or of a side depends on the cells alone that are reached from it.
pub fn reach_laws()
    ensures cell { FormDependsOnReached }
    ensures side { SideDependsOnReached }
{}

/// An edit of one cell changes the forms of touched places alone, and one of a decision cell none.
pub fn edit_laws()
    ensures texts { TextsDifferAtOne }
    ensures untouched { UntouchedKeepTheirForms }
    ensures decision { DecisionsSayNothing }
    ensures touched { TouchedBeforeAndBehind }
{}

/// So do edits of several cells, at once or one behind the other.
pub fn list_laws()
    ensures several { SeveralEdits }
    ensures looks { UntouchedLookTheSame }
    ensures behind { UntouchedBehind }
    ensures row { EditsInARow }
{}

/// A test tells which places an edit of a cell touches.
pub fn test_laws()
    ensures touches { TouchesWhatIsTouched }
{}

/// What some edits of a small sheet touch, worked out by hand.
pub fn examples_hold()
    ensures cost { Hold changed_cost }
    ensures label { Hold changed_label }
    ensures circular { Hold circular_cells }
    ensures before { Hold together_before }
    ensures behind { HoldBehind together_behind }
{}
