// The prices of the rows of a sheet.
ghost use Rattle.std.specs.Prelude.{◌≡◌, ◌≤◌, ◌<◌, ◌-◌, IfOk, OnErr, length};
ghost use Rattle.commands.specs.Commands.{Prices};
ghost use Rattle.commands.specs.Lines.{CanBeSaid};
ghost use Rattle.commands.specs.Locating.{sheet_named};
ghost use Rattle.session.specs.Inner.{FewOfSheet, FollowsCommand, FollowsModel};
ghost use Rattle.session.specs.Interrupted.{IsUntouched};
ghost use Rattle.session.specs.Kept.{CountsFew};
ghost use Rattle.session.specs.Prices.{PricesSheet};
ghost use Rattle.session.specs.Steps.{Does};
ghost use Rattle.sheet_linear_model.specs.Answers.{prepared_of};
ghost use Rattle.sheet_linear_model.specs.Prepared.{IsPrepared};
ghost use Rattle.solver_names.specs.Answers.{statement_of};
ghost use Rattle.sheet_linear_model.specs.FromStatementLaws.{IsWhole};

use crate::Session;
use crate::models::answer_without_model;
use cell_refs::SheetId;
use commands::{Answer, Memory};
use kept_book::Steps;
use sheet_linear_model::Prepared;
use sheet_prices::price_rows;
use std::sync::ledger::Ledger;

impl Session {
    /// The prices of the rows of the sheet that is named.
    pub(crate) fn prices<L: Ledger>(
        &mut self,
        name: &str,
        steps: &mut Steps<L>,
    ) -> Result<Answer, Memory>
        ensures step { IfOk result (λ answer. Does (PricesSheet self.old.state) self.old.state
            (sheet_named self.old.state.book.sheets name.now) answer self.new.state) }
        ensures said { IfOk result (CanBeSaid self.old.state.book.sheets) }
        ensures same { self.new.state ≡ self.old.state }
        ensures memory { OnErr result
            (IsUntouched self.old.state (Prices name.now) self.new.state) }
        ensures follows { IfOk result
            (λ answer. FollowsCommand self.old (Prices name.now) answer self.new) }
        ensures counted { steps.old ≤ steps.new }
        ensures few { CountsFew self.old (Prices name.now) (steps.new - steps.old) }
    {
        match self.book.sheets().find(name) {
            Some(sheet) => self.price_sheet(sheet, steps),
            None => Ok(Answer::UnknownSheet),
        }
    }

    // The prices of the rows of a sheet.
    fn price_sheet<L: Ledger>(
        &mut self,
        sheet: SheetId,
        steps: &mut Steps<L>,
    ) -> Result<Answer, Memory>
        requires listed { sheet.0 < length self.old.state.book.sheets }
        ensures step { IfOk result (λ answer.
            PricesSheet self.old.state sheet.0 answer self.new.state) }
        ensures said { IfOk result (CanBeSaid self.old.state.book.sheets) }
        ensures same { self.new.state ≡ self.old.state }
        ensures follows { IfOk result (λ answer. FollowsModel self.old sheet.0 self.new) }
        ensures counted { steps.old ≤ steps.new }
        ensures few { FewOfSheet self.old sheet.0 (steps.new - steps.old) }
    {
        match self.prepare(sheet, steps) {
            Ok(prepared) => self.price_model(sheet, prepared),
            Err(stop) => answer_without_model(stop),
        }
    }

    // The prices of the rows of a sheet's model.
    fn price_model(&self, sheet: SheetId, of: Prepared) -> Result<Answer, Memory>
        requires prepared { IsPrepared self.now.state.book sheet.0 (prepared_of of) }
        requires whole { IsWhole self.now.state.book (statement_of of.statement) }
        ensures step { IfOk result (λ answer.
            PricesSheet self.now.state sheet.0 answer self.now.state) }
        ensures said { IfOk result (CanBeSaid self.now.state.book.sheets) }
    {
        price_rows(self.alloc, &of, self.budget)
    }
}
