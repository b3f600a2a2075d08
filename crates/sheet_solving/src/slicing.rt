// A slice of a search over the model of a sheet.
ghost use Rattle.std.specs.Prelude.{◌≡◌, ◌<◌, ◌≤◌, ℕ, IfOk, OnErr};
ghost use Rattle.commands.specs.Lines.{CanBeSaid};
ghost use Rattle.search_bounds.specs.Choices.{IsBounded};
ghost use Rattle.search_bounds.specs.Enough.{enough_for};
ghost use Rattle.sheet_linear_model.specs.Prepared.{IsPrepared, Prepared};
ghost use Rattle.commands.specs.FromSheetProblems.{ModelIsTheSheet};
ghost use Rattle.sheet_solving.specs.Inner.{TellsStop};
ghost use Rattle.sheet_solving.specs.Searches.{GoesFurther, task_from};
ghost use Rattle.sheet_solving.specs.Solving.{HasBudgetLeft, Slices};
ghost use Rattle.solver_names.specs.Answers.{statement_of};
ghost use Rattle.sheet_linear_model.specs.FromStatementLaws.{IsWhole};

use crate::open_search::OpenSearch;
use crate::path::by_cells;
use crate::searched::{Allowed, spend};
use crate::told::tell;
use branch_bound::SearchStop;
use commands::Answer;
use memory::Memory;
use node_pick::Picker;
use solver_names::Statement;
use std::alloc::Global;
use workbook::Workbook;

/// Why a search stops, by the cells to be decided.
pub fn tell_stop(alloc: Global, statement: &Statement, stop: SearchStop) -> Result<Answer, Memory>
    ensures { IfOk result (TellsStop statement.now.adj stop) }
{
    match stop {
        SearchStop::WidePivot(path, basis, leaves, enters) => {
            let steps = by_cells(alloc, statement.adj.cells(), &path)?;
            Ok(Answer::WidePivot(steps, basis, leaves, enters))
        }
        SearchStop::Budget(units) => Ok(Answer::Budget(units)),
        SearchStop::Memory => Err(Memory),
    }
}

/// Goes on with a search of the model of a sheet, by the rule of the picker, and writes an optimum into the cells to be decided. After
/// want of memory no unit that was spent is lost, and the search can be gone on with, also one that has ended.
pub fn slice(
    alloc: Global,
    book: &mut Workbook,
    statement: &Statement,
    search: &mut OpenSearch,
    allowed: Allowed,
    pick: &mut Box<dyn Picker>,
) -> Result<Answer, Memory>
    requires budget { allowed.budget ≤ 1000000 }
    requires prepared { (sheet : ℕ) × (p : Prepared) × IsPrepared book.old sheet p
        × (p.statement ≡ statement_of statement.now) × (p.model ≡ search.old.model) }
    requires model { ModelIsTheSheet book.old (statement_of statement.now) search.old.model }
    requires whole { IsWhole book.old (statement_of statement.now) }
    ensures slices { IfOk result (λ s. Slices (task_from (rule pick.old) search.old
        allowed.units allowed.budget) book.old (statement_of statement.now)
        search.old.model s search.new book.new) }
    ensures said { IfOk result (CanBeSaid book.old.sheets) }
    ensures sheets { book.new.sheets ≡ book.old.sheets }
    ensures memory { OnErr result (book.new ≡ book.old) }
    ensures further { GoesFurther (task_from (rule pick.old) search.old
        allowed.units allowed.budget) search.old.model search.new }
    ensures enough { IsBounded search.old.model → enough_for search.old.model ≤ allowed.budget
        → IfOk result HasBudgetLeft }
    ensures few { IsBounded search.old.model → search.new.units < enough_for search.old.model }
    ensures rule { rule pick.new ≡ rule pick.old }
{
    let end = search.end.take();
    match spend(&mut search.search, end, allowed, pick) {
        Ok(end) => {
            let told = tell(alloc, book, statement, &end, search.search.units());
            search.end = end;
            told
        }
        Err(stop) => tell_stop(alloc, statement, stop),
    }
}
