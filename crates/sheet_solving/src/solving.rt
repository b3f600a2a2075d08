// A sheet's model, solved.
ghost use Rattle.std.specs.Prelude.{◌≡◌, ◌≤◌, ℕ, IfOk, OnErr};
ghost use Rattle.commands.specs.Lines.{CanBeSaid};
ghost use Rattle.search_bounds.specs.Choices.{IsBounded};
ghost use Rattle.search_bounds.specs.Enough.{enough_for};
ghost use Rattle.sheet_linear_model.specs.Answers.{prepared_of};
ghost use Rattle.sheet_linear_model.specs.Prepared.{IsPrepared};
ghost use Rattle.commands.specs.FromSheetProblems.{ModelIsTheSheet};
ghost use Rattle.sheet_solving.specs.Searches.{whole_task};
ghost use Rattle.sheet_solving.specs.Solving.{HasBudgetLeft, Solves};
ghost use Rattle.solver_names.specs.Answers.{statement_of};
ghost use Rattle.sheet_linear_model.specs.FromStatementLaws.{IsWhole};

use crate::open_search::OpenSearch;
use crate::searched::Allowed;
use crate::slicing::slice;
use commands::Answer;
use memory::Memory;
use node_pick::Picker;
use sheet_linear_model::Prepared;
use std::alloc::Global;
use workbook::Workbook;

/// Solves the model of a sheet by a search of its own, which may spend so many units and opens the nodes that the picker chooses,
/// and writes an optimum into the cells to be decided.
pub fn solve(
    alloc: Global,
    book: &mut Workbook,
    of: Prepared,
    budget: u64,
    pick: &mut Box<dyn Picker>,
) -> Result<Answer, Memory>
    requires budget { budget ≤ 1000000 }
    requires prepared { (sheet : ℕ) × IsPrepared book.old sheet (prepared_of of) }
    requires model { ModelIsTheSheet book.old (statement_of of.statement) of.model }
    requires whole { IsWhole book.old (statement_of of.statement) }
    ensures solves { IfOk result
        (λ s. Solves (whole_task (rule pick.old) budget) book.old
        (statement_of of.statement) of.model s book.new) }
    ensures said { IfOk result (CanBeSaid book.old.sheets) }
    ensures sheets { book.new.sheets ≡ book.old.sheets }
    ensures memory { OnErr result (book.new ≡ book.old) }
    ensures enough { IsBounded of.model → enough_for of.model ≤ budget → IfOk result HasBudgetLeft }
    ensures rule { rule pick.new ≡ rule pick.old }
{
    let Prepared {
        statement,
        model,
        ..
    } = of;
    let mut search = OpenSearch::begin(alloc, model)?;
    let allowed = Allowed {
        units: budget,
        budget,
    };
    slice(alloc, book, &statement, &mut search, allowed, pick)
}
