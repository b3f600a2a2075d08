//! The problem that the names of a sheet state, as recalculation has it, and that it is the problem of the linear model of its forms.
//! This crate has the definitions and their laws, and no code that runs. `worth_laws` says that the numbers of the decision cells determine
//! what each place is worth; `model_laws` says that the sheet and its linear model are one problem.
//! Below it stand `solver_names` (the statement), `form_extraction` (what a form is) and `linear_models`. Above it stand `form_needs`,
//! `statement_laws`, `model_building`, `kept_tables` and `parameter_problems`.
//! What a row, a goal and an optimum are comes from `optimality`. How the names of Excel's Solver state a problem is written in
//! docs/FORMATS.md.
#![tactic(auto)]

ghost use Rattle.sheet_problems.specs.Examples.{WorthsHold};
ghost use Rattle.sheet_problems.specs.Laws.{DecisionIsItsNumber, DependsOnDecisions, EqualNumbersGiveEqualValues, FormsFit, FormsStateTheProblem, LinearModelIsTheSheet};

pub use solver_names::{RowOf, Statement};

/// What places are worth is determined by the numbers of the decision cells.
pub fn worth_laws()
    ensures equal { EqualNumbersGiveEqualValues }
    ensures depends { DependsOnDecisions }
    ensures decision { DecisionIsItsNumber }
{}

/// Where the sides and the objective have forms, the sheet and the linear model of these are one problem.
pub fn model_laws()
    ensures stated { FormsStateTheProblem }
    ensures fit { FormsFit }
    ensures model { LinearModelIsTheSheet }
{}

/// What places of a small sheet are worth, worked out by hand.
pub fn examples_hold()
    ensures { WorthsHold }
{}
