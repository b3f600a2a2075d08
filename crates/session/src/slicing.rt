// Searches that are gone on with in slices.
ghost use Rattle.std.specs.Prelude.{◌-◌, ◌<◌, ◌≡◌, ◌≤◌, ◌⊎◌, IfOk, IsSome, OnErr, Some, length, ℕ};
ghost use Rattle.commands.specs.Commands.{Slice};
ghost use Rattle.commands.specs.Lines.{CanBeSaid};
ghost use Rattle.commands.specs.declared.answer.Answer.{Answer as Said};
ghost use Rattle.kept_book.specs.Kept.{written_cells};
ghost use Rattle.session.specs.Cuts.{Cut, IsUnderWay, Sliced, Slices, cut, cut_of};
ghost use Rattle.session.specs.Inner.{Drops, FewOfSheet, FollowsCommand, FollowsSheet, Spends};
ghost use Rattle.session.specs.Interrupted.{IsInterrupted};
ghost use Rattle.session.specs.Kept.{CountsFew};
ghost use Rattle.session.specs.Solves.{WithModel};
ghost use Rattle.session.specs.States.{SessionState, open_search, with_contents};
ghost use Rattle.session.specs.Steps.{Does};
ghost use Rattle.sheet_linear_model.specs.Answers.{prepared_of};
ghost use Rattle.sheet_linear_model.specs.Prepared.{IsPrepared, Prepared as OfSheet};
ghost use Rattle.kept_tables.specs.FromSheetProblems.{ModelIsTheSheet};
ghost use Rattle.kept_book.specs.FromSheetSolving.{GoesFurther, Opened, begun, task_from};
ghost use Rattle.solver_names.specs.Answers.{statement_of};
ghost use Rattle.sheet_linear_model.specs.FromStatementLaws.{IsWhole};

use crate::Session;
use crate::models::answer_without_model;
use crate::open_searches::{has_model, has_search, put_search, search_after, take_search};
use cell_refs::SheetId;
use commands::{Answer, Memory, units_in};
use kept_book::{Allowed, OpenSearch, Steps};
use node_pick::Picker;
use sheet_linear_model::Prepared;
use solver_names::Statement;
use std::sync::ledger::Ledger;

impl Session {
    // Goes on with the search of the sheet that is named.
    pub(crate) fn slice<L: Ledger>(
        &mut self,
        name: &str,
        units: &str,
        pick: &mut Box<dyn Picker>,
        steps: &mut Steps<L>,
    ) -> Result<Answer, Memory>
        ensures step { IfOk result (λ answer. Does (λ (c : Cut). WithModel
            (Slices (rule pick.old) self.old.state c) self.old.state c.sheet) self.old.state
            (cut_of self.old.state name.now units.now) answer self.new.state) }
        ensures said { IfOk result (CanBeSaid self.old.state.book.sheets) }
        ensures sheets { self.new.state.book.sheets ≡ self.old.state.book.sheets }
        ensures memory { OnErr result (IsInterrupted (rule pick.old) self.old.state
            (Slice name.now units.now) self.new.state) }
        ensures follows { IfOk result
            (λ answer. FollowsCommand self.old (Slice name.now units.now) answer self.new) }
        ensures counted { steps.old ≤ steps.new }
        ensures few { CountsFew self.old (Slice name.now units.now) (steps.new - steps.old) }
        ensures rule { rule pick.new ≡ rule pick.old }
    {
        let Some(sheet) = self.book.sheets().find(name) else {
            return Ok(Answer::UnknownSheet);
        };
        let Some(units) = units_in(units) else {
            return Ok(Answer::BadNumber);
        };
        if !has_search(&self.searches, usize::from(sheet.0)) {
            return Ok(Answer::NoSearch);
        }
        self.slice_sheet(sheet, units, pick, steps)
    }

    // Goes on with the search of a sheet.
    fn slice_sheet<L: Ledger>(
        &mut self,
        sheet: SheetId,
        units: u64,
        pick: &mut Box<dyn Picker>,
        steps: &mut Steps<L>,
    ) -> Result<Answer, Memory>
        requires listed { sheet.0 < length self.old.state.book.sheets }
        requires open { IsSome (open_search self.old.state sheet.0) }
        ensures step { IfOk result (λ answer. (search : Opened)
            → open_search self.old.state sheet.0 ≡ Some search
            → WithModel (Slices (rule pick.old) self.old.state (cut sheet.0 units search))
            self.old.state sheet.0 answer self.new.state) }
        ensures said { IfOk result (CanBeSaid self.old.state.book.sheets) }
        ensures sheets { self.new.state.book.sheets ≡ self.old.state.book.sheets }
        ensures memory { OnErr result ((search : Opened)
            → open_search self.old.state sheet.0 ≡ Some search
            → IsUnderWay (rule pick.old) self.old.state (cut sheet.0 units search) self.new.state) }
        ensures follows { IfOk result (λ answer. FollowsSheet self.old sheet.0 answer self.new) }
        ensures counted { steps.old ≤ steps.new }
        ensures few { FewOfSheet self.old sheet.0 (steps.new - steps.old) }
        ensures rule { rule pick.new ≡ rule pick.old }
    {
        match self.prepare(sheet, steps) {
            Ok(prepared) => self.slice_model(sheet, prepared, units, pick),
            Err(stop) => answer_without_model(stop),
        }
    }

    // Goes on with the search where its model is still that of the sheet, and begins anew where it isn't.
    fn slice_model(
        &mut self,
        sheet: SheetId,
        of: Prepared,
        units: u64,
        pick: &mut Box<dyn Picker>,
    ) -> Result<Answer, Memory>
        requires listed { sheet.0 < length self.old.state.book.sheets }
        requires open { IsSome (open_search self.old.state sheet.0) }
        requires prepared { IsPrepared self.old.state.book sheet.0 (prepared_of of) }
        requires model { ModelIsTheSheet self.old.state.book
            (statement_of of.statement) of.model }
        requires whole { IsWhole self.old.state.book (statement_of of.statement) }
        ensures step { IfOk result (λ answer. (search : Opened)
            → open_search self.old.state sheet.0 ≡ Some search
            → Slices (rule pick.old) self.old.state (cut sheet.0 units search)
            (prepared_of of) answer self.new.state) }
        ensures said { IfOk result (CanBeSaid self.old.state.book.sheets) }
        ensures sheets { self.new.state.book.sheets ≡ self.old.state.book.sheets }
        ensures memory { OnErr result ((search : Opened)
            → open_search self.old.state sheet.0 ≡ Some search
            → IsUnderWay (rule pick.old) self.old.state (cut sheet.0 units search) self.new.state) }
        ensures drops { IfOk result (λ answer.
            Drops (written_cells answer of.statement.adj) self.old self.new) }
        ensures rule { rule pick.new ≡ rule pick.old }
    {
        if has_model(&self.searches, usize::from(sheet.0), &of.model) {
            self.go_on(sheet, &of, units, pick)
        } else {
            self.begin_anew(sheet, of, units, pick)
        }
    }

    // Goes on with the search. After want of memory it is open with the units that were spent.
    fn go_on(
        &mut self,
        sheet: SheetId,
        of: &Prepared,
        units: u64,
        pick: &mut Box<dyn Picker>,
    ) -> Result<Answer, Memory>
        requires listed { sheet.0 < length self.old.state.book.sheets }
        requires open { IsSome (open_search self.old.state sheet.0) }
        requires same { (search : Opened) → open_search self.old.state sheet.0 ≡ Some search
            → search.model ≡ of.now.model }
        requires prepared { IsPrepared self.old.state.book sheet.0 (prepared_of of.now) }
        requires model { ModelIsTheSheet self.old.state.book
            (statement_of of.now.statement) of.now.model }
        requires whole { IsWhole self.old.state.book (statement_of of.now.statement) }
        ensures step { IfOk result (λ answer. (search : Opened)
            → open_search self.old.state sheet.0 ≡ Some search
            → Sliced (task_from (rule pick.old) search units self.old.state.budget)
            self.old.state sheet.0 (prepared_of of.now) answer self.new.state) }
        ensures said { IfOk result (CanBeSaid self.old.state.book.sheets) }
        ensures sheets { self.new.state.book.sheets ≡ self.old.state.book.sheets }
        ensures memory { OnErr result ((search : Opened)
            → open_search self.old.state sheet.0 ≡ Some search
            → IsUnderWay (rule pick.old) self.old.state (cut sheet.0 units search) self.new.state) }
        ensures drops { IfOk result (λ answer.
            Drops (written_cells answer of.now.statement.adj) self.old self.new) }
        ensures rule { rule pick.new ≡ rule pick.old }
    {
        let place = usize::from(sheet.0);
        let Some(search) = take_search(&mut self.searches, place) else {
            unreachable!()
        };
        let mut search = search;
        match self.spend(&of.statement, &mut search, units, pick) {
            Ok(answer) => {
                put_search(&mut self.searches, place, search_after(&answer, search));
                Ok(answer)
            }
            Err(_) => {
                put_search(&mut self.searches, place, Some(search));
                Err(Memory)
            }
        }
    }

    // Begins a search anew, apart from the one that is open, and puts it in the place of that one, or closes that one where it ends.
    fn begin_anew(
        &mut self,
        sheet: SheetId,
        of: Prepared,
        units: u64,
        pick: &mut Box<dyn Picker>,
    ) -> Result<Answer, Memory>
        requires listed { sheet.0 < length self.old.state.book.sheets }
        requires prepared { IsPrepared self.old.state.book sheet.0 (prepared_of of) }
        requires model { ModelIsTheSheet self.old.state.book
            (statement_of of.statement) of.model }
        requires whole { IsWhole self.old.state.book (statement_of of.statement) }
        ensures step { IfOk result (λ answer.
            Sliced (task_from (rule pick.old) (begun of.model) units self.old.state.budget)
            self.old.state sheet.0 (prepared_of of) answer self.new.state) }
        ensures said { IfOk result (CanBeSaid self.old.state.book.sheets) }
        ensures sheets { self.new.state.book.sheets ≡ self.old.state.book.sheets }
        ensures memory { OnErr result ((self.new.state ≡ self.old.state)
            ⊎ ((a : Said) × (answered : SessionState)
            × Sliced (task_from (rule pick.old) (begun of.model) units self.old.state.budget)
            self.old.state sheet.0 (prepared_of of) a answered
            × (self.new.state ≡ with_contents self.old.state answered))) }
        ensures drops { IfOk result (λ answer.
            Drops (written_cells answer of.statement.adj) self.old self.new) }
        ensures rule { rule pick.new ≡ rule pick.old }
    {
        let Prepared {
            statement,
            model,
            ..
        } = of;
        let search = OpenSearch::begin(self.alloc, model)?;
        self.put_anew(sheet, &statement, search, units, pick)
    }

    // Spends units of a search that was begun apart, and puts it in the place of the open one, or closes that one where it ends. After
    // want of memory that one stays.
    fn put_anew(
        &mut self,
        sheet: SheetId,
        statement: &Statement,
        search: OpenSearch,
        units: u64,
        pick: &mut Box<dyn Picker>,
    ) -> Result<Answer, Memory>
        requires listed { sheet.0 < length self.old.state.book.sheets }
        requires prepared { (place : ℕ) × (p : OfSheet) × IsPrepared self.old.state.book place p
            × (p.statement ≡ statement_of statement.now) × (p.model ≡ search.model) }
        requires model { ModelIsTheSheet self.old.state.book
            (statement_of statement.now) search.model }
        requires whole { IsWhole self.old.state.book (statement_of statement.now) }
        ensures step { IfOk result (λ answer. (p : OfSheet)
            → p.statement ≡ statement_of statement.now → p.model ≡ search.model
            → Sliced (task_from (rule pick.old) search units self.old.state.budget)
            self.old.state sheet.0 p answer self.new.state) }
        ensures said { IfOk result (CanBeSaid self.old.state.book.sheets) }
        ensures sheets { self.new.state.book.sheets ≡ self.old.state.book.sheets }
        ensures memory { OnErr result ((self.new.state ≡ self.old.state)
            ⊎ ((a : Said) × (answered : SessionState)
            × ((p : OfSheet) → p.statement ≡ statement_of statement.now → p.model ≡ search.model
            → Sliced (task_from (rule pick.old) search units self.old.state.budget)
            self.old.state sheet.0 p a answered)
            × (self.new.state ≡ with_contents self.old.state answered))) }
        ensures drops { IfOk result (λ answer.
            Drops (written_cells answer statement.now.adj) self.old self.new) }
        ensures rule { rule pick.new ≡ rule pick.old }
    {
        let mut search = search;
        match self.spend(statement, &mut search, units, pick) {
            Ok(answer) => {
                let left = search_after(&answer, search);
                put_search(&mut self.searches, usize::from(sheet.0), left);
                Ok(answer)
            }
            Err(stop) => {
                drop(search);
                Err(stop)
            }
        }
    }

    // Goes on with a search of a sheet's model that stands apart, and leaves the open ones as they are.
    fn spend(
        &mut self,
        statement: &Statement,
        search: &mut OpenSearch,
        units: u64,
        pick: &mut Box<dyn Picker>,
    ) -> Result<Answer, Memory>
        requires prepared { (sheet : ℕ) × (p : OfSheet) × IsPrepared self.old.state.book sheet p
            × (p.statement ≡ statement_of statement.now) × (p.model ≡ search.old.model) }
        requires model { ModelIsTheSheet self.old.state.book
            (statement_of statement.now) search.old.model }
        requires whole { IsWhole self.old.state.book (statement_of statement.now) }
        ensures step { IfOk result (λ answer.
            Spends (task_from (rule pick.old) search.old units self.old.state.budget)
            self.old.state (statement_of statement.now) search.old.model answer
            search.new self.new.state) }
        ensures said { IfOk result (CanBeSaid self.old.state.book.sheets) }
        ensures sheets { self.new.state.book.sheets ≡ self.old.state.book.sheets }
        ensures memory { OnErr result ((self.new.state ≡ self.old.state) ⊎ ((a : Said)
            × Spends (task_from (rule pick.old) search.old units self.old.state.budget)
            self.old.state (statement_of statement.now) search.old.model a
            search.new self.new.state)) }
        ensures drops { IfOk result (λ answer.
            Drops (written_cells answer statement.now.adj) self.old self.new) }
        ensures further { GoesFurther
            (task_from (rule pick.old) search.old units self.old.state.budget)
            search.old.model search.new }
        ensures rule { rule pick.new ≡ rule pick.old }
    {
        let allowed = Allowed {
            units,
            budget: self.budget,
        };
        let (answer, kept) = self.book.slice(statement, search, allowed, pick)?;
        self.mark_written(&statement.adj, &answer);
        match kept {
            Ok(()) => Ok(answer),
            Err(memory) => {
                drop(answer);
                Err(memory)
            }
        }
    }
}
