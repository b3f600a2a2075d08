// The models of sheets.
ghost use Rattle.std.specs.Prelude.{◌-◌, ◌<◌, ◌≡◌, ◌≤◌, Err, IfErr, IfOk, OnErr, length, ℕ};
ghost use Rattle.commands.specs.Commands.{Model as ToModel};
ghost use Rattle.commands.specs.Lines.{CanBeSaid};
ghost use Rattle.commands.specs.Locating.{sheet_named};
ghost use Rattle.session.specs.Inner.{FewOfSheet, FollowsCommand, FollowsModel, UnlessMemory};
ghost use Rattle.session.specs.Interrupted.{IsUntouched};
ghost use Rattle.session.specs.Kept.{CountsFew};
ghost use Rattle.session.specs.Models.{Models};
ghost use Rattle.session.specs.Steps.{Does, ModelsSheet};
ghost use Rattle.sheet_linear_model.specs.Answers.{HasNoModel, Prepares, StopIsListed};
ghost use Rattle.kept_tables.specs.FromSheetProblems.{ModelIsTheSheet};
ghost use Rattle.solver_names.specs.Answers.{statement_of};
ghost use Rattle.sheet_linear_model.specs.FromStatementLaws.{IsWhole};
ghost use Rattle.workbook.specs.State.{State};

use crate::Session;
use crate::open_searches::searching;
use cell_refs::SheetId;
use commands::{Answer, Memory};
use kept_book::Steps;
use sheet_linear_model::{NoModel, Prepared, model_lines};
use std::sync::ledger::Ledger;

impl Session {
    // The model of the sheet that is named.
    pub(crate) fn model<L: Ledger>(
        &mut self,
        name: &str,
        steps: &mut Steps<L>,
    ) -> Result<Answer, Memory>
        ensures step { IfOk result (λ answer. Does (ModelsSheet self.old.state) self.old.state
            (sheet_named self.old.state.book.sheets name.now) answer self.new.state) }
        ensures said { IfOk result (CanBeSaid self.old.state.book.sheets) }
        ensures same { self.new.state ≡ self.old.state }
        ensures memory { OnErr result
            (IsUntouched self.old.state (ToModel name.now) self.new.state) }
        ensures follows { IfOk result
            (λ answer. FollowsCommand self.old (ToModel name.now) answer self.new) }
        ensures counted { steps.old ≤ steps.new }
        ensures few { CountsFew self.old (ToModel name.now) (steps.new - steps.old) }
    {
        match self.book.sheets().find(name) {
            Some(sheet) => self.model_sheet(sheet, steps),
            None => Ok(Answer::UnknownSheet),
        }
    }

    // The model of a sheet as it is printed, or the first cause why it has none.
    pub(crate) fn model_sheet<L: Ledger>(
        &mut self,
        sheet: SheetId,
        steps: &mut Steps<L>,
    ) -> Result<Answer, Memory>
        requires listed { sheet.0 < length self.old.state.book.sheets }
        ensures model { IfOk result (Models self.old.state.book sheet.0) }
        ensures said { IfOk result (CanBeSaid self.old.state.book.sheets) }
        ensures same { self.new.state ≡ self.old.state }
        ensures follows { IfOk result (λ answer. FollowsModel self.old sheet.0 self.new) }
        ensures counted { steps.old ≤ steps.new }
        ensures few { FewOfSheet self.old sheet.0 (steps.new - steps.old) }
    {
        let alloc = self.alloc;
        match self.prepare(sheet, steps) {
            Ok(prepared) => Ok(Answer::Model(model_lines(alloc, prepared)?)),
            Err(stop) => answer_without_model(stop),
        }
    }

    // The linear model of a sheet, or the first cause why it has none. Each form that is made is a step.
    pub(crate) fn prepare<L: Ledger>(
        &mut self,
        sheet: SheetId,
        steps: &mut Steps<L>,
    ) -> Result<Prepared, NoModel>
        requires listed { sheet.0 < length self.old.state.book.sheets }
        ensures prepares { Prepares self.old.state.book sheet.0 result }
        ensures model { IfOk result
            (λ p. ModelIsTheSheet self.old.state.book (statement_of p.statement) p.model) }
        ensures whole { IfOk result (λ p. IsWhole self.old.state.book (statement_of p.statement)) }
        ensures said { IfErr result (StopIsListed self.old.state.book) }
        ensures same { self.new.state ≡ self.old.state }
        ensures follows { UnlessMemory result (FollowsModel self.old sheet.0 self.new) }
        ensures counted { steps.old ≤ steps.new }
        ensures few { FewOfSheet self.old sheet.0 (steps.new - steps.old) }
    {
        let searching = searching(self.alloc, &self.searches)?;
        self.book.prepare(sheet, &searching, steps)
    }
}

/// The answer for a sheet without a model.
pub(crate) fn answer_without_model(stop: NoModel) -> Result<Answer, Memory>
    ensures none { IfOk result (λ answer. (book : State) (sheet : ℕ)
        → Prepares book sheet (Err stop) → HasNoModel book sheet answer) }
    ensures said { IfOk result (λ answer. (book : State) (sheet : ℕ)
        → Prepares book sheet (Err stop) → StopIsListed book stop → CanBeSaid book.sheets answer) }
    ensures refused { IfOk result (λ answer. stop ≡ NoModel.Refused answer) }
{
    match stop {
        NoModel::Refused(answer) => Ok(answer),
        NoModel::Memory => Err(Memory),
    }
}
