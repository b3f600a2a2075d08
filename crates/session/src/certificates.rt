// The certificates of what solves of sheets answer.
ghost use Rattle.std.specs.Prelude.{◌≡◌, ◌≤◌, ◌<◌, ◌-◌, IfOk, OnErr, length};
ghost use Rattle.commands.specs.Commands.{Cert};
ghost use Rattle.commands.specs.Lines.{CanBeSaid};
ghost use Rattle.commands.specs.Locating.{sheet_named};
ghost use Rattle.kept_tables.specs.FromSheetProblems.{ModelIsTheSheet};
ghost use Rattle.session.specs.Certificates.{CertifiesSheet};
ghost use Rattle.session.specs.Inner.{FewOfSheet, FollowsCommand, FollowsModel};
ghost use Rattle.session.specs.Interrupted.{IsUntouched};
ghost use Rattle.session.specs.Kept.{CountsFew};
ghost use Rattle.session.specs.Steps.{Does};
ghost use Rattle.sheet_linear_model.specs.Answers.{prepared_of};
ghost use Rattle.sheet_linear_model.specs.FromStatementLaws.{IsWhole};
ghost use Rattle.sheet_linear_model.specs.Prepared.{IsPrepared};
ghost use Rattle.solver_names.specs.Answers.{statement_of};

use crate::Session;
use crate::models::answer_without_model;
use cell_refs::SheetId;
use commands::{Answer, Memory};
use kept_book::Steps;
use node_pick::Picker;
use sheet_certificates::certify;
use sheet_linear_model::Prepared;
use std::sync::ledger::Ledger;

impl Session {
    /// The certificate of what a solve of the sheet that is named answers.
    pub(crate) fn certify<L: Ledger>(
        &mut self,
        name: &str,
        pick: &mut Box<dyn Picker>,
        steps: &mut Steps<L>,
    ) -> Result<Answer, Memory>
        ensures step { IfOk result (λ answer.
            Does (CertifiesSheet (rule pick.old) self.old.state) self.old.state
            (sheet_named self.old.state.book.sheets name.now) answer self.new.state) }
        ensures said { IfOk result (CanBeSaid self.old.state.book.sheets) }
        ensures same { self.new.state ≡ self.old.state }
        ensures memory { OnErr result (IsUntouched self.old.state (Cert name.now) self.new.state) }
        ensures follows { IfOk result
            (λ answer. FollowsCommand self.old (Cert name.now) answer self.new) }
        ensures counted { steps.old ≤ steps.new }
        ensures few { CountsFew self.old (Cert name.now) (steps.new - steps.old) }
        ensures rule { rule pick.new ≡ rule pick.old }
    {
        match self.book.sheets().find(name) {
            Some(sheet) => self.certify_sheet(sheet, pick, steps),
            None => Ok(Answer::UnknownSheet),
        }
    }

    // The certificate of a sheet.
    fn certify_sheet<L: Ledger>(
        &mut self,
        sheet: SheetId,
        pick: &mut Box<dyn Picker>,
        steps: &mut Steps<L>,
    ) -> Result<Answer, Memory>
        requires listed { sheet.0 < length self.old.state.book.sheets }
        ensures step { IfOk result (λ answer. CertifiesSheet (rule pick.old) self.old.state
            sheet.0 answer self.new.state) }
        ensures said { IfOk result (CanBeSaid self.old.state.book.sheets) }
        ensures same { self.new.state ≡ self.old.state }
        ensures follows { IfOk result (λ answer. FollowsModel self.old sheet.0 self.new) }
        ensures counted { steps.old ≤ steps.new }
        ensures few { FewOfSheet self.old sheet.0 (steps.new - steps.old) }
        ensures rule { rule pick.new ≡ rule pick.old }
    {
        match self.prepare(sheet, steps) {
            Ok(prepared) => self.certify_model(sheet, prepared, pick),
            Err(stop) => answer_without_model(stop),
        }
    }

    // The certificate of a sheet's model.
    fn certify_model(
        &self,
        sheet: SheetId,
        of: Prepared,
        pick: &mut Box<dyn Picker>,
    ) -> Result<Answer, Memory>
        requires prepared { IsPrepared self.now.state.book sheet.0 (prepared_of of) }
        requires model { ModelIsTheSheet self.now.state.book (statement_of of.statement) of.model }
        requires whole { IsWhole self.now.state.book (statement_of of.statement) }
        ensures step { IfOk result (λ answer. CertifiesSheet (rule pick.old) self.now.state
            sheet.0 answer self.now.state) }
        ensures said { IfOk result (CanBeSaid self.now.state.book.sheets) }
        ensures rule { rule pick.new ≡ rule pick.old }
    {
        certify(self.alloc, of, self.budget, pick)
    }
}
