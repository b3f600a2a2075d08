// The end of a search over the model of a sheet.
ghost use Rattle.std.specs.Prelude.{◌≡◌, ◌≢◌, ◌≤◌, IfOk, length};
ghost use Rattle.branch_bound.specs.declared.progress.Progress.TheVariants as progress;
ghost use Rattle.sheet_finding.specs.Finding.{CanBeFound, Finds, IsFound, IsFoundBy};
ghost use Rattle.sheet_solving.specs.FromSheetProblems.{ModelIsTheSheet};
ghost use Rattle.sheet_solving.specs.FromStatementLaws.{IsWhole};
ghost use Rattle.sheet_solving.specs.Searches.{whole_task};
ghost use Rattle.solver_names.specs.Answers.{statement_of};
ghost use Rattle.workbook.specs.State.{State};

use crate::running::run_whole;
use branch_bound::{Progress, Search, SearchStop};
use commands::Answer;
use frac128::Frac;
use lin_model::LinModel;
use memory::Memory;
use node_pick::Picker;
use sheet_solving::{objective_value, tell_stop};
use solver_names::Statement;
use std::alloc::Global;

/// How a search ends: at an optimum, whose numbers are still to be written, with the objective's number where there is an objective;
/// or with another answer.
#[derive(Drop)]
pub enum Found {
    Optimal(Vec<Frac>, Option<Frac>),
    Told(Answer),
}

// The answer of a search as it is found.
fn found_at(statement: &Statement, end: Progress) -> Found
    requires { end ≢ progress.More }
    ensures { IsFound (statement_of statement.now) end result }
{
    match end {
        Progress::Optimal(point, value) => {
            Found::Optimal(
                point,
                objective_value(statement.objective, statement.goal, value),
            )
        }
        Progress::Infeasible => Found::Told(Answer::Infeasible),
        Progress::Unbounded(_, _) => Found::Told(Answer::Unbounded),
        Progress::More => unreachable!(),
    }
}

// What a search comes to by an end of its run, or by what stops it.
fn told_of(
    alloc: Global,
    statement: &Statement,
    run: Result<Progress, SearchStop>,
) -> Result<Found, Memory>
    requires { IfOk run (λ end. end ≢ progress.More) }
    ensures { IfOk result (IsFoundBy (statement_of statement.now) run) }
{
    match run {
        Ok(end) => Ok(found_at(statement, end)),
        Err(stop) => Ok(Found::Told(tell_stop(alloc, statement, stop)?)),
    }
}

/// Searches a model of a sheet, with so many units, by nodes that the picker chooses. Nothing is written, so that the workbook for
/// which the answer is true need not be there yet.
pub fn find(
    alloc: Global,
    statement: &Statement,
    model: LinModel,
    budget: u64,
    pick: &mut Box<dyn Picker>,
) -> Result<Found, Memory>
    requires budget { budget ≤ 1000000 }
    ensures finds { IfOk result (λ found. (book : State)
        → ModelIsTheSheet book (statement_of statement.now) model
        → Finds (whole_task (rule pick.old) budget) book
        (statement_of statement.now) model found) }
    ensures said { IfOk result (λ found. (book : State)
        → IsWhole book (statement_of statement.now)
        → length model.whole ≡ length statement.now.adj → CanBeFound book.sheets found) }
    ensures rule { rule pick.new ≡ rule pick.old }
{
    let mut search = Search::begin(alloc, model, budget)?;
    let run = run_whole(&mut search, budget, pick);
    drop(search);
    told_of(alloc, statement, run)
}
