//! What a branch and bound search is: its tree, its trail and its answers, in contracts alone, with their laws.
#![tactic(auto)]

ghost use Rattle.searches.specs.Alike.{AlikeOrDifferent, ClosedAtClash};
ghost use Rattle.searches.specs.Laws.{AnswersAreTrue, OneAnswer, NoNodeIsOpenedTwice, NumbersRise, OneNextState, OneTrail};
ghost use Rattle.searches.specs.GoesOn.{SearchGoesOn};
ghost use Rattle.searches.specs.Slices.{SlicesAgree, SlicesJoin, SlicesPart};
ghost use Rattle.searches.specs.TrueTrees.{TreesAreTrue};

/// What a search that is over answers is true of the model.
pub fn answers_are_true()
    ensures { AnswersAreTrue }
{}

/// No search opens a node twice.
pub fn no_node_is_opened_twice()
    ensures { NoNodeIsOpenedTwice }
{}

/// The numbers of the nodes that wait rise along every trail.
pub fn numbers_rise()
    ensures { NumbersRise }
{}

/// Under a rule other than the free one there is one next unit at most, and one state after it.
pub fn next_state_is_one()
    ensures { OneNextState }
{}

/// So there is at most one trail of each length that follows the rule.
pub fn trail_is_one()
    ensures { OneTrail }
{}

/// All nodes that are opened are those of true trees.
pub fn trees_are_true()
    ensures { TreesAreTrue }
{}

/// A search that is over has one answer.
pub fn answer_is_one()
    ensures { OneAnswer }
{}

/// Where a search isn't over, there is a next unit, or a next pivot that isn't narrow.
pub fn search_goes_on()
    ensures { SearchGoesOn }
{}

/// Two slices of a search, one after the other, are one slice of both their units.
pub fn slices_join()
    ensures { SlicesJoin }
{}

/// One slice is two, wherever it is cut.
pub fn slices_part()
    ensures { SlicesPart }
{}

/// However a search was cut, as many units by a rule lead to the same state.
pub fn slices_agree()
    ensures { SlicesAgree }
{}

/// At each point all groups are different, or there is one first pair of decisions that hold the same number.
pub fn alike_or_different()
    ensures { AlikeOrDifferent }
{}

/// Where two decisions of a group hold the same number, and the bounds of neither differ, both are fixed to it.
pub fn closed_at_clash()
    ensures { ClosedAtClash }
{}
