// Solves of sheets, whose optimum is written into the cells to be decided.
ghost use Rattle.std.specs.Prelude.{◌-◌, ◌<◌, ◌≡◌, ◌≤◌, ◌⊎◌, All, IfOk, OnErr, length};
ghost use Rattle.commands.specs.Commands.{Solve};
ghost use Rattle.commands.specs.Lines.{CanBeSaid};
ghost use Rattle.commands.specs.declared.answer.Answer.{Answer as Said};
ghost use Rattle.kept_book.specs.Kept.{written_cells};
ghost use Rattle.search_bounds.specs.Choices.{IsBounded};
ghost use Rattle.search_bounds.specs.Enough.{enough_for};
ghost use Rattle.session.specs.Completeness.{CanBeSolved, IsComplete, IsSettled};
ghost use Rattle.session.specs.Inner.{Drops, FewOfSheet, FollowsCommand, FollowsSheet};
ghost use Rattle.session.specs.Interrupted.{IsStopped};
ghost use Rattle.session.specs.Kept.{CountsFew};
ghost use Rattle.session.specs.Solves.{SearchEnds, SolvesSheet, with_written};
ghost use Rattle.session.specs.States.{with_changed};
ghost use Rattle.session.specs.Steps.{Applies};
ghost use Rattle.sheet_linear_model.specs.Answers.{prepared_of};
ghost use Rattle.sheet_linear_model.specs.Prepared.{IsPrepared};
ghost use Rattle.kept_tables.specs.FromSheetProblems.{ModelIsTheSheet};
ghost use Rattle.kept_book.specs.FromSheetSolving.{whole_task};
ghost use Rattle.kept_book.specs.FromSheetSolving.{HasBudgetLeft};
ghost use Rattle.solver_names.specs.Answers.{statement_of};
ghost use Rattle.sheet_linear_model.specs.FromStatementLaws.{IsWhole};
ghost use Rattle.cell_refs.specs.Listed.{IsListed};

use crate::Session;
use crate::models::answer_without_model;
use cell_refs::{Cell, SheetId};
use commands::{Answer, Memory};
use kept_book::Steps;
use node_pick::Picker;
use sheet_linear_model::Prepared;
use std::sync::ledger::Ledger;
use workbook::Adj;

impl Session {
    // Solves the sheet that is named.
    pub(crate) fn solve<L: Ledger>(
        &mut self,
        name: &str,
        pick: &mut Box<dyn Picker>,
        steps: &mut Steps<L>,
    ) -> Result<Answer, Memory>
        ensures step { IfOk result (λ answer.
            Applies (rule pick.old) self.old.state (Solve name.now) answer self.new.state) }
        ensures said { IfOk result (CanBeSaid self.old.state.book.sheets) }
        ensures sheets { self.new.state.book.sheets ≡ self.old.state.book.sheets }
        ensures memory { OnErr result
            (IsStopped (rule pick.old) self.old.state (Solve name.now) self.new.state) }
        ensures complete { IfOk result
            (IsComplete (rule pick.old) self.old.state (Solve name.now)) }
        ensures follows { IfOk result
            (λ answer. FollowsCommand self.old (Solve name.now) answer self.new) }
        ensures counted { steps.old ≤ steps.new }
        ensures few { CountsFew self.old (Solve name.now) (steps.new - steps.old) }
        ensures rule { rule pick.new ≡ rule pick.old }
    {
        match self.book.sheets().find(name) {
            Some(sheet) => self.solve_sheet(sheet, pick, steps),
            None => Ok(Answer::UnknownSheet),
        }
    }

    // Solves a sheet.
    fn solve_sheet<L: Ledger>(
        &mut self,
        sheet: SheetId,
        pick: &mut Box<dyn Picker>,
        steps: &mut Steps<L>,
    ) -> Result<Answer, Memory>
        requires listed { sheet.0 < length self.old.state.book.sheets }
        ensures step { IfOk result (λ answer.
            SolvesSheet (rule pick.old) self.old.state sheet.0 answer self.new.state) }
        ensures said { IfOk result (CanBeSaid self.old.state.book.sheets) }
        ensures sheets { self.new.state.book.sheets ≡ self.old.state.book.sheets }
        ensures memory { OnErr result ((self.new.state ≡ self.old.state) ⊎ ((a : Said)
            × SolvesSheet (rule pick.old) self.old.state sheet.0 a self.new.state)) }
        ensures complete { IfOk result (λ answer.
            CanBeSolved (rule pick.old) self.old.state sheet.0 → IsSettled answer) }
        ensures follows { IfOk result (λ answer. FollowsSheet self.old sheet.0 answer self.new) }
        ensures counted { steps.old ≤ steps.new }
        ensures few { FewOfSheet self.old sheet.0 (steps.new - steps.old) }
        ensures rule { rule pick.new ≡ rule pick.old }
    {
        match self.prepare(sheet, steps) {
            Ok(prepared) => self.search(sheet, prepared, pick),
            Err(stop) => answer_without_model(stop),
        }
    }

    // Searches the model of a sheet.
    fn search(
        &mut self,
        sheet: SheetId,
        prepared: Prepared,
        pick: &mut Box<dyn Picker>,
    ) -> Result<Answer, Memory>
        requires prepared { IsPrepared self.old.state.book sheet.0 (prepared_of prepared) }
        requires model { ModelIsTheSheet self.old.state.book
            (statement_of prepared.statement) prepared.model }
        requires whole { IsWhole self.old.state.book (statement_of prepared.statement) }
        ensures step { IfOk result (λ answer.
            SearchEnds (whole_task (rule pick.old) self.old.state.budget) self.old.state
            (statement_of prepared.statement) prepared.model answer self.new.state) }
        ensures said { IfOk result (CanBeSaid self.old.state.book.sheets) }
        ensures sheets { self.new.state.book.sheets ≡ self.old.state.book.sheets }
        ensures memory { OnErr result ((self.new.state ≡ self.old.state) ⊎ ((a : Said)
            × SearchEnds (whole_task (rule pick.old) self.old.state.budget) self.old.state
            (statement_of prepared.statement) prepared.model a self.new.state)) }
        ensures enough { IsBounded prepared.model
            → enough_for prepared.model ≤ self.old.state.budget → IfOk result HasBudgetLeft }
        ensures drops { IfOk result (λ answer.
            Drops (written_cells answer prepared.statement.adj) self.old self.new) }
        ensures rule { rule pick.new ≡ rule pick.old }
    {
        let adj = prepared.statement.adj.copy()?;
        let (answer, kept) = self.book.solve(prepared, self.budget, pick)?;
        self.mark_written(&adj, &answer);
        match kept {
            Ok(()) => Ok(answer),
            Err(memory) => {
                drop(answer);
                Err(memory)
            }
        }
    }

    // Where an optimum is written into these cells, the files of their sheets count as changed.
    pub(crate) fn mark_written(&mut self, adj: &Adj, answer: &Answer)
        requires { All (IsListed self.old.state.book.sheets) adj.now }
        ensures state { self.new.state ≡ with_written answer.now adj.now self.old.state }
        ensures tables { self.new.tables ≡ self.old.tables }
    {
        if let Answer::Optimal(_) = answer {
            self.mark(adj.cells());
        }
    }

    // The files of the sheets of these cells count as changed.
    fn mark(&mut self, cells: &[Cell])
        requires { All (IsListed self.old.state.book.sheets) cells.now }
        ensures state { self.new.state ≡ with_changed self.old.state cells.now }
        ensures tables { self.new.tables ≡ self.old.tables }
    {
        let [cell, later @ ..] = cells else {
            return;
        };
        self.changed_sheets[usize::from(cell.sheet.0)] = true;
        self.mark(later);
    }
}
