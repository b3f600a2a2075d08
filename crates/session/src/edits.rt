// Edits of cells, of names and of the budget.
ghost use Rattle.std.specs.Prelude.{◌<◌, ◌≡◌, ◌≢◌, ◌⊎◌, IfOk, None, OnErr, [], length};
ghost use Rattle.commands.specs.Commands.{Clear, Name, Set, Unname};
ghost use Rattle.commands.specs.Lines.{CanBeSaid};
ghost use Rattle.commands.specs.Locating.{cell_named, units_named};
ghost use Rattle.node_pick.specs.Rules.{Rule};
ghost use Rattle.session.specs.Edits.{cell_to_set, home_to_name, home_to_unname, refused, unless};
ghost use Rattle.session.specs.Inner.{FollowsCommand, FollowsEdit};
ghost use Rattle.session.specs.Interrupted.{IsStopped};
ghost use Rattle.session.specs.States.{with_budget};
ghost use Rattle.session.specs.Steps.{Does, IsDone, with_name, with_text, without_name};
ghost use Rattle.workbook.specs.Edits.{set_fault};

use crate::Session;
use cell_refs::Cell;
use commands::{Answer, Memory, locate, units_in};
use workbook::{EditFault, sheet_in, unname_fault};

// ---- cells
impl Session {
    // Puts a text into the cell that is named.
    pub(crate) fn set(&mut self, address: &str, text: &str) -> Result<Answer, Memory>
        ensures step { IfOk result (λ answer.
            Does (λ cell. IsDone (with_text self.old.state cell text.now)) self.old.state
            (cell_to_set self.old.state.book address.now text.now) answer self.new.state) }
        ensures said { IfOk result (CanBeSaid self.old.state.book.sheets) }
        ensures sheets { self.new.state.book.sheets ≡ self.old.state.book.sheets }
        ensures memory { OnErr result
            ((r : Rule) → IsStopped r self.old.state (Set address.now text.now) self.new.state) }
        ensures follows { IfOk result (λ answer.
            FollowsCommand self.old (Set address.now text.now) answer self.new) }
    {
        match locate(self.book.sheets(), address) {
            Ok(cell) => self.put(cell, text),
            Err(answer) => Ok(answer),
        }
    }

    // Puts a text into a cell.
    fn put(&mut self, cell: Cell, text: &str) -> Result<Answer, Memory>
        requires listed { cell.sheet.0 < length self.old.state.book.sheets }
        ensures step { IfOk result (λ answer.
            Does (λ c. IsDone (with_text self.old.state c text.now)) self.old.state
            (unless (set_fault self.old.state.book cell text.now) cell) answer self.new.state) }
        ensures said { IfOk result (CanBeSaid self.old.state.book.sheets) }
        ensures sheets { self.new.state.book.sheets ≡ self.old.state.book.sheets }
        ensures allowed { OnErr result (set_fault self.old.state.book cell text.now ≡ None) }
        ensures some { OnErr result (text.now ≢ []) }
        ensures memory { OnErr result ((self.new.state ≡ self.old.state)
            ⊎ (self.new.state ≡ with_text self.old.state cell text.now)) }
        ensures follows { IfOk result (λ answer. FollowsEdit cell answer self.old self.new) }
    {
        match self.book.set(cell, text) {
            Ok(kept) => {
                self.changed_sheets[usize::from(cell.sheet.0)] = true;
                kept?;
                Ok(Answer::Done)
            }
            Err(fault) => told_fault(fault),
        }
    }

    // Takes away the text of the cell that is named.
    pub(crate) fn clear(&mut self, address: &str) -> Answer
        ensures step { Does (λ cell. IsDone (with_text self.old.state cell [])) self.old.state
            (cell_named self.old.state.book.sheets address.now) result self.new.state }
        ensures said { CanBeSaid self.old.state.book.sheets result }
        ensures sheets { self.new.state.book.sheets ≡ self.old.state.book.sheets }
        ensures follows { FollowsCommand self.old (Clear address.now) result self.new }
    {
        match locate(self.book.sheets(), address) {
            Ok(cell) => {
                self.book.clear(cell);
                self.changed_sheets[usize::from(cell.sheet.0)] = true;
                Answer::Done
            }
            Err(answer) => answer,
        }
    }
}

// ---- names and the budget
impl Session {
    // Gives a name a text, for the sheet that is named or for the whole workbook.
    pub(crate) fn name(&mut self, sheet: &str, name: &str, text: &str) -> Result<Answer, Memory>
        ensures step { IfOk result (λ answer.
            Does (λ home. IsDone (with_name self.old.state home name.now text.now)) self.old.state
            (home_to_name self.old.state.book sheet.now name.now text.now) answer self.new.state) }
        ensures said { IfOk result (CanBeSaid self.old.state.book.sheets) }
        ensures sheets { self.new.state.book.sheets ≡ self.old.state.book.sheets }
        ensures memory { OnErr result ((r : Rule)
            → IsStopped r self.old.state (Name sheet.now name.now text.now) self.new.state) }
        ensures follows { IfOk result (λ answer.
            FollowsCommand self.old (Name sheet.now name.now text.now) answer self.new) }
    {
        let Some(home) = sheet_in(self.book.sheets(), sheet) else {
            return Ok(Answer::UnknownSheet);
        };
        match self.book.name(home, name, text) {
            Ok(kept) => {
                self.changed_names = true;
                kept?;
                Ok(Answer::Done)
            }
            Err(fault) => told_fault(fault),
        }
    }

    // Takes away a name of the sheet that is named, or of the whole workbook.
    pub(crate) fn unname(&mut self, sheet: &str, name: &str) -> Result<Answer, Memory>
        ensures step { IfOk result (λ answer.
            Does (λ home. IsDone (without_name self.old.state home name.now)) self.old.state
            (home_to_unname self.old.state.book sheet.now name.now) answer self.new.state) }
        ensures said { IfOk result (CanBeSaid self.old.state.book.sheets) }
        ensures sheets { self.new.state.book.sheets ≡ self.old.state.book.sheets }
        ensures memory { OnErr result ((r : Rule)
            → IsStopped r self.old.state (Unname sheet.now name.now) self.new.state) }
        ensures follows { IfOk result (λ answer.
            FollowsCommand self.old (Unname sheet.now name.now) answer self.new) }
    {
        let Some(home) = sheet_in(self.book.sheets(), sheet) else {
            return Ok(Answer::UnknownSheet);
        };
        if let Some(fault) = unname_fault(name) {
            return told_fault(fault);
        }
        let kept = self.book.unname(home, name)?;
        self.changed_names = true;
        kept?;
        Ok(Answer::Done)
    }

    // Sets how many units a later search may spend.
    pub(crate) fn set_budget(&mut self, units: &str) -> Answer
        ensures step { Does (λ n. IsDone (with_budget self.old.state n)) self.old.state
            (units_named units.now) result self.new.state }
        ensures said { CanBeSaid self.old.state.book.sheets result }
        ensures sheets { self.new.state.book.sheets ≡ self.old.state.book.sheets }
        ensures book { self.new.state.book ≡ self.old.state.book }
        ensures tables { self.new.tables ≡ self.old.tables }
    {
        let Some(budget) = units_in(units) else {
            return Answer::BadNumber;
        };
        self.budget = budget;
        Answer::Done
    }
}

/// The answer for a fault of the workbook.
pub(crate) fn told_fault(fault: EditFault) -> Result<Answer, Memory>
    ensures told { IfOk result (λ answer. answer ≡ refused fault) }
    ensures some { IfOk result (λ answer. fault ≢ EditFault.Memory) }
    ensures memory { OnErr result (fault ≡ EditFault.Memory) }
{
    match fault {
        EditFault::OutOfSheet => Ok(Answer::OutOfSheet),
        EditFault::FieldTooLong => Ok(Answer::FieldTooLong),
        EditFault::TooManyCells => Ok(Answer::TooManyCells),
        EditFault::TooManyFormulas => Ok(Answer::TooManyFormulas),
        EditFault::BadName => Ok(Answer::BadName),
        EditFault::TooManyNames => Ok(Answer::TooManyNames),
        EditFault::Memory => Err(Memory),
    }
}
