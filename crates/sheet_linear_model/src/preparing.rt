// The linear model of a sheet.
ghost use Rattle.std.specs.Prelude.{◌≤◌, ◌<◌, ◌-◌, IfErr, IfOk, length};
ghost use Rattle.cell_refs.specs.declared.adj.TheConstants.{DECISIONS};
ghost use Rattle.dep_table.specs.References.{AreReferencesOf};
ghost use Rattle.linear_models.specs.Agreement.{Fits};
ghost use Rattle.linear_models.specs.Conditions as conditions;
ghost use Rattle.kept_forms.specs.Tables.{all_forms, is_searching};
ghost use Rattle.kept_forms.specs.FromKeptTables.{AreRight};
ghost use Rattle.sheet_linear_model.specs.Answers.{CountsFew, Prepares, SettlesForms, StopIsListed, parts_in};
ghost use Rattle.sheet_linear_model.specs.Inner.{IsKeptFor, IsModelled, IsStatement};
ghost use Rattle.sheet_linear_model.specs.Prepared.{rows_of};
ghost use Rattle.form_needs.specs.FromSheetProblems.{conditions_of};
ghost use Rattle.form_needs.specs.FromSheetProblems.{ModelIsTheSheet};
ghost use Rattle.solver_names.specs.Answers.{statement_of};
ghost use Rattle.statement_laws.specs.Laws.{IsWhole};
ghost use Rattle.workbook.specs.Kinds.{book_of};

use crate::numbers::{objective, sides};
use crate::prepared::{NoModel, Prepared};
use crate::stated::{check_forms, settle, statement_or_stop};
use affine_forms::Form;
use cell_refs::SheetId;
use commands::Answer;
use kept_forms::{FormTables, Forms, Linked, Steps};
use lin_model::{BuildStop, LinModel, linear};
use model_building::conditions;
use solver_names::Statement;
use std::alloc::Global;
use std::sync::ledger::Ledger;
use workbook::Workbook;

// The linear model of what is stated, with the forms of the objective and of both sides of each row.
fn linear_model(
    alloc: Global,
    of: &Statement,
    objective: &Form,
    sides: &[(Form, Form)],
) -> Result<LinModel, NoModel>
    requires few { length of.now.adj ≤ DECISIONS }
    requires fits { Fits (conditions_of (statement_of of.now)) objective.now sides.now }
    ensures { IsModelled (rows_of (statement_of of.now) objective.now sides.now) result }
{
    let conditions = conditions(alloc, of)?;
    match linear(alloc, &conditions, objective, sides) {
        Ok(model) => Ok(model),
        Err(BuildStop::WideRow(row)) => Err(NoModel::Refused(Answer::WideRow(row))),
        Err(BuildStop::Memory) => Err(NoModel::Memory),
    }
}

// The model of what is stated, over the forms that are kept for it.
fn model_over(
    alloc: Global,
    book: &Workbook,
    statement: Statement,
    forms: &Forms,
) -> Result<Prepared, NoModel>
    requires statement { IsStatement book.now (statement_of statement) }
    requires kept { IsKeptFor book.now (statement_of statement) forms.now }
    ensures prepares { Prepares book.now statement.sheet.0 result }
    ensures model { IfOk result (λ p. ModelIsTheSheet book.now (statement_of p.statement) p.model) }
    ensures whole { IfOk result (λ p. IsWhole book.now (statement_of p.statement)) }
    ensures said { IfErr result (StopIsListed book.now) }
{
    check_forms(alloc, book, &statement, forms)?;
    let objective = objective(alloc, book, &statement, forms)?;
    let sides = sides(alloc, book, &statement, forms)?;
    match linear_model(alloc, &statement, &objective, &sides) {
        Ok(model) => Ok(Prepared {
            statement,
            objective,
            sides,
            model,
        }),
        Err(stop) => Err(stop),
    }
}

/// What the names of a sheet state, as a linear model; or the first cause why there is none: a fault of the names, then the first
/// refusal of a needed place, then the first row that isn't narrow. The forms that are missing are made, each of them is one step, and
/// they are kept in the table of the sheet.
pub fn prepare<L: Ledger>(
    alloc: Global,
    linked: &Linked<'_>,
    sheet: SheetId,
    tables: &mut FormTables,
    searching: &[bool],
    steps: &mut Steps<L>,
) -> Result<Prepared, NoModel>
    requires listed { sheet.0 < length linked.now.book.now.sheets }
    requires searching { sheet.0 < length searching.now }
    requires references { AreReferencesOf linked.now.deps.now (book_of linked.now.book.now) }
    requires right { AreRight (book_of linked.now.book.now) (all_forms tables.old) }
    ensures prepares { Prepares linked.now.book.now sheet.0 result }
    ensures model { IfOk result
        (λ p. ModelIsTheSheet linked.now.book.now (statement_of p.statement) p.model) }
    ensures whole { IfOk result (λ p. IsWhole linked.now.book.now (statement_of p.statement)) }
    ensures said { IfErr result (StopIsListed linked.now.book.now) }
    ensures settles { SettlesForms linked.now.book.now (is_searching searching.now) sheet.0
        result tables.old tables.new }
    ensures right { AreRight (book_of linked.now.book.now) (all_forms tables.new) }
    ensures counted { steps.old ≤ steps.new }
    ensures few { CountsFew linked.now.book.now tables.old sheet.0
        (parts_in linked.now.book.now sheet.0) (steps.new - steps.old) }
{
    let statement = statement_or_stop(alloc, linked.book, sheet)?;
    let once = settle(alloc, linked, &statement, tables, searching, steps)?;
    match tables.settled(sheet, &once) {
        Some(forms) => model_over(alloc, linked.book, statement, forms),
        None => unreachable!(),
    }
}
