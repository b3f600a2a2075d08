//! Dictionaries of linear programs, Bland's rule and its runs, as contracts see them, and the laws of the simplex method.
#![tactic(auto)]

ghost use Rattle.dictionaries.specs.Count.{RisingListsCounted};
ghost use Rattle.dictionaries.specs.Dictionary.{FirstIsDictionary, PivotKeepsSolutions, PivotKeepsDictionary};
ghost use Rattle.dictionaries.specs.Reading.{BasisTellsDictionary, FirstKeepsPoints, OneOfTwoIsBasic, OneOfTwoIsZero, OppositeNeverImproves};
ghost use Rattle.dictionaries.specs.Run.{EndIsFinal, EndsProve, NeverRetires, NeverReturns, NextIsDetermined, NoneStandsTwice, RunEnds, RunGoesOn, RunIsDetermined, RunStaysOnTheWay, RunsAreShort, UnitsAreEnough};

/// The first dictionary is one of its program.
pub fn first_is_dictionary()
    ensures { FirstIsDictionary }
{}

/// The first dictionary has the program's points, with the same objective.
pub fn first_keeps_points()
    ensures { FirstKeepsPoints }
{}

/// A pivot keeps the solutions of a dictionary.
pub fn pivot_keeps_solutions()
    ensures { PivotKeepsSolutions }
{}

/// A pivot leads to a dictionary of the same program.
pub fn pivot_keeps_dictionary()
    ensures { PivotKeepsDictionary }
{}

/// Dictionaries of one program with the same basic variables are the same, up to the order of rows and columns.
pub fn basis_tells_dictionary()
    ensures { BasisTellsDictionary }
{}

/// Of two columns that are each other's negative at most one is basic.
pub fn one_of_two_is_basic()
    ensures { OneOfTwoIsBasic }
{}

/// Where one of two such columns is basic, the other never improves the objective.
pub fn opposite_never_improves()
    ensures { OppositeNeverImproves }
{}

/// So in a basic solution, and along an entering variable, one of two such columns is 0.
pub fn one_of_two_is_zero()
    ensures { OneOfTwoIsZero }
{}

/// Each dictionary of a run represents its program, and after the first pivot no constant is negative.
pub fn run_stays_on_the_way()
    ensures { RunStaysOnTheWay }
{}

/// The next pivot of a run is given by its last dictionary alone.
pub fn next_is_determined()
    ensures { NextIsDetermined }
{}

/// A program has one run of each length at most.
pub fn run_is_determined()
    ensures { RunIsDetermined }
{}

/// Where a run has ended, there is no next pivot.
pub fn end_is_final()
    ensures { EndIsFinal }
{}

/// Where a run hasn't ended, there is a next pivot.
pub fn run_goes_on()
    ensures { RunGoesOn }
{}

/// A run comes to its end, or to a pivot that isn't narrow.
pub fn run_ends()
    ensures { RunEnds }
{}

/// Variable 0 leaves by Bland's rule itself.
pub fn never_retires()
    ensures { NeverRetires }
{}

/// Where a run ends, its last dictionary has a leaf proof.
pub fn ends_prove()
    ensures { EndsProve }
{}

/// No two dictionaries of a run have the same basic variables.
pub fn never_returns()
    ensures { NeverReturns }
{}

/// No dictionary stands twice in a run.
pub fn none_stands_twice()
    ensures { NoneStandsTwice }
{}

/// Different rising lists of j numbers below k are at most C(k, j).
pub fn rising_lists_counted()
    ensures { RisingListsCounted }
{}

/// A run has at most as many dictionaries as there are choices of basic variables.
pub fn runs_are_short()
    ensures { RunsAreShort }
{}

/// The stated number of units is enough for one program.
pub fn units_are_enough()
    ensures { UnitsAreEnough }
{}
