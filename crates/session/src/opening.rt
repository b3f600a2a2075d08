// Searches that are opened and closed.
ghost use Rattle.std.specs.Prelude.{◌-◌, ◌<◌, ◌≡◌, ◌≤◌, IfOk, OnErr, length};
ghost use Rattle.commands.specs.Commands.{Begin};
ghost use Rattle.commands.specs.Lines.{CanBeSaid};
ghost use Rattle.session.specs.Cuts.{Begins, Stops, sheet_to_begin, sheet_to_stop};
ghost use Rattle.session.specs.Inner.{FewOfSheet, FollowsCommand, FollowsModel};
ghost use Rattle.session.specs.Interrupted.{IsUntouched};
ghost use Rattle.session.specs.Kept.{CountsFew};
ghost use Rattle.session.specs.Solves.{WithModel};
ghost use Rattle.session.specs.Steps.{Does};
ghost use Rattle.sheet_linear_model.specs.Answers.{prepared_of};

use crate::Session;
use crate::models::answer_without_model;
use crate::open_searches::{MOST_SEARCHES, count_others, has_search, put_search};
use cell_refs::SheetId;
use commands::{Answer, Memory};
use kept_book::{OpenSearch, Steps};
use sheet_linear_model::Prepared;
use std::sync::ledger::Ledger;

impl Session {
    // Opens a search of the sheet that is named.
    pub(crate) fn begin<L: Ledger>(
        &mut self,
        name: &str,
        steps: &mut Steps<L>,
    ) -> Result<Answer, Memory>
        ensures step { IfOk result (λ answer.
            Does (λ i. WithModel (Begins self.old.state i) self.old.state i) self.old.state
            (sheet_to_begin self.old.state name.now) answer self.new.state) }
        ensures said { IfOk result (CanBeSaid self.old.state.book.sheets) }
        ensures sheets { self.new.state.book.sheets ≡ self.old.state.book.sheets }
        ensures memory { OnErr result
            (IsUntouched self.old.state (Begin name.now) self.new.state) }
        ensures follows { IfOk result
            (λ answer. FollowsCommand self.old (Begin name.now) answer self.new) }
        ensures counted { steps.old ≤ steps.new }
        ensures few { CountsFew self.old (Begin name.now) (steps.new - steps.old) }
    {
        let Some(sheet) = self.book.sheets().find(name) else {
            return Ok(Answer::UnknownSheet);
        };
        if count_others(&self.searches, usize::from(sheet.0)) >= MOST_SEARCHES {
            return Ok(Answer::TooManySearches);
        }
        self.begin_sheet(sheet, steps)
    }

    // Opens a search of a sheet.
    fn begin_sheet<L: Ledger>(
        &mut self,
        sheet: SheetId,
        steps: &mut Steps<L>,
    ) -> Result<Answer, Memory>
        requires listed { sheet.0 < length self.old.state.book.sheets }
        ensures step { IfOk result (λ answer. WithModel (Begins self.old.state sheet.0)
            self.old.state sheet.0 answer self.new.state) }
        ensures said { IfOk result (CanBeSaid self.old.state.book.sheets) }
        ensures sheets { self.new.state.book.sheets ≡ self.old.state.book.sheets }
        ensures memory { OnErr result (self.new.state ≡ self.old.state) }
        ensures follows { IfOk result (λ answer. FollowsModel self.old sheet.0 self.new) }
        ensures counted { steps.old ≤ steps.new }
        ensures few { FewOfSheet self.old sheet.0 (steps.new - steps.old) }
    {
        match self.prepare(sheet, steps) {
            Ok(prepared) => self.begin_model(sheet, prepared),
            Err(stop) => answer_without_model(stop),
        }
    }

    // Opens a search of the model of a sheet.
    fn begin_model(&mut self, sheet: SheetId, of: Prepared) -> Result<Answer, Memory>
        requires listed { sheet.0 < length self.old.state.book.sheets }
        ensures step { IfOk result (λ answer. Begins self.old.state sheet.0 (prepared_of of)
            answer self.new.state) }
        ensures said { IfOk result (CanBeSaid self.old.state.book.sheets) }
        ensures sheets { self.new.state.book.sheets ≡ self.old.state.book.sheets }
        ensures memory { OnErr result (self.new.state ≡ self.old.state) }
        ensures tables { self.new.tables ≡ self.old.tables }
    {
        let Prepared { model, .. } = of;
        let search = OpenSearch::begin(self.alloc, model)?;
        put_search(&mut self.searches, usize::from(sheet.0), Some(search));
        Ok(Answer::Begun)
    }

    // Closes the search of the sheet that is named.
    pub(crate) fn stop(&mut self, name: &str) -> Answer
        ensures step { Does (Stops self.old.state) self.old.state
            (sheet_to_stop self.old.state name.now) result self.new.state }
        ensures said { CanBeSaid self.old.state.book.sheets result }
        ensures sheets { self.new.state.book.sheets ≡ self.old.state.book.sheets }
        ensures book { self.new.state.book ≡ self.old.state.book }
        ensures tables { self.new.tables ≡ self.old.tables }
    {
        let Some(sheet) = self.book.sheets().find(name) else {
            return Answer::UnknownSheet;
        };
        if !has_search(&self.searches, usize::from(sheet.0)) {
            return Answer::NoSearch;
        }
        put_search(&mut self.searches, usize::from(sheet.0), None);
        Answer::Stopped
    }
}
