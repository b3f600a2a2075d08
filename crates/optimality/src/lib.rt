//! What permitted, better, optimal, infeasible and unbounded mean, for any problem.
#![tactic(auto)]

mod kinds;

ghost use Rattle.optimality.specs.EachOnce.{DifferentInRangeIsEachOnce};
ghost use Rattle.optimality.specs.Examples.{DifferentTwo, NumberedThree};
ghost use Rattle.optimality.specs.Laws.{AnswersExclude, OneBestValue, ReachedIsOptimal, SameAnswersHold};

pub use kinds::{Goal, Relation};

/// No problem has two of the answers optimal, infeasible and unbounded.
pub fn answers_exclude_each_other()
    ensures { AnswersExclude }
{}

/// Where a value is to be reached, every permitted assignment is optimal.
pub fn reached_is_optimal()
    ensures { ReachedIsOptimal }
{}

/// Two optimal assignments have the same objective.
pub fn one_best_value()
    ensures { OneBestValue }
{}

/// Problems with the same permitted assignments and objective have the same answers, and a constant as the objective changes no
/// answer of a problem without one.
pub fn agreeing_problems_are_answered_alike()
    ensures { SameAnswersHold }
{}

/// N decisions hold the numbers 1 to N, each once, exactly where they hold different whole numbers from 1 to N.
pub fn different_in_range_is_each_once()
    ensures { DifferentInRangeIsEachOnce }
{}

/// Three decisions that hold the numbers 1 to 3, each once.
pub fn three_are_numbered()
    ensures { NumberedThree }
{}

/// Two decisions that are different.
pub fn two_are_different()
    ensures { DifferentTwo }
{}
