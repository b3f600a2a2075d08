// A session: a workbook and the commands on it.
ghost use Rattle.std.specs.Prelude.{◌-◌, ◌≡◌, ◌≤◌, IfOk, OnErr, []};
ghost use Rattle.commands.specs.Commands.{Show, spoken};
ghost use Rattle.commands.specs.Lines.{CanBeSaid};
ghost use Rattle.commands.specs.Locating.{cell_named};
ghost use Rattle.kept_tables.specs.Settled.{AreRight};
ghost use Rattle.session.specs.Completeness.{IsComplete};
ghost use Rattle.session.specs.Inner.{FollowsCommand};
ghost use Rattle.session.specs.Interrupted.{IsInterrupted, IsUntouched};
ghost use Rattle.session.specs.Kept.{CountsFew, KeepsForms};
ghost use Rattle.session.specs.Laws.{Counts, OthersStay};
ghost use Rattle.session.specs.States.{opened};
ghost use Rattle.session.specs.Steps.{Applies, Does, Shows};
ghost use Rattle.sheet_linear_model.specs.FromKeptForms.{all_forms};
ghost use Rattle.workbook.specs.Kinds.{book_of};

use crate::open_searches::no_searches;
use cell_refs::{Cell, SheetNames};
use commands::{Answer, Command, MOST_UNITS, Memory, locate};
use kept_book::{KeptBook, OpenSearch, Steps};
use node_pick::Picker;
use recalc::Shown;
use std::alloc::Global;
use std::marker::Model;
use std::sync::ledger::Ledger;
use workbook::Workbook;

/// A workbook to which commands are applied, the files that have changed since they were read, the budget in units, and
/// the open searches, one for a sheet. A slice goes by the budget as it is then, so that a new budget reaches every open search.
#[derive(Drop)]
pub struct Session {
    pub(crate) alloc: Global,
    pub(crate) book: KeptBook,
    pub(crate) changed_sheets: Vec<bool>,
    pub(crate) changed_names: bool,
    pub(crate) budget: u64,
    pub(crate) searches: Vec<Option<OpenSearch>>,
}

impl Model for Session {
    ghost use Rattle.std.specs.Coded.{codes, coded_ℕ};
    ghost use Rattle.std.specs.FinMap.{code};
    ghost use Rattle.cell_refs.specs.Cells.{coded_cell};
    ghost use Rattle.kept_book.specs.Codes.{tables_code};
    ghost use Rattle.session.specs.States.{IsSession, Session, session_code};

    ghost Value = { Session };

    ghost coded = { session_code (Prim.hlevel codes) (tables_code (Prim.hlevel codes)
        (code coded_cell (Prim.hlevel codes)) (code coded_ℕ (Prim.hlevel codes))) };

    ghost view = { λ s. record {
      state = record {
        book = s.book.book;
        changed = record { sheets = s.changed_sheets.items; names = s.changed_names };
        budget = s.budget;
        searches = s.searches.items;
      };
      tables = s.book.tables;
    } };

    ghost invariant = { λ s. IsSession (record {
      book = s.book.book;
      changed = record { sheets = s.changed_sheets.items; names = s.changed_names };
      budget = s.budget;
      searches = s.searches.items;
    }) };
}

impl Session {
    /// A session over a workbook that was opened from files.
    pub fn open(alloc: Global, book: Workbook, budget: u64) -> Result<Session, Memory>
        requires { budget ≤ MOST_UNITS }
        ensures { IfOk result
            (λ session. session ≡ record { state = opened book budget; tables = [] }) }
    {
        let mut changed_sheets = Vec::new(alloc);
        changed_sheets.resize(book.sheets().len(), false)?;
        let searches = no_searches(alloc, book.sheets().len())?;
        Ok(Session {
            alloc,
            book: KeptBook::new(alloc, book)?,
            changed_sheets,
            changed_names: false,
            budget,
            searches,
        })
    }

    /// The names of the workbook's sheets.
    pub fn sheets(&self) -> &SheetNames
        ensures { result.now ≡ self.now.state.book.sheets }
    {
        self.book.sheets()
    }

    /// How many forms were made, over all commands. A form that is kept from one command to the next is made once.
    pub fn extractions(&self) -> u64 {
        self.book.extractions()
    }

    /// Does what the command says. Each form that is made is a step. Also where memory runs out each form that is kept is that of its place.
    pub fn apply<L: Ledger>(
        &mut self,
        command: &Command,
        pick: &mut Box<dyn Picker>,
        steps: &mut Steps<L>,
    ) -> Result<Answer, Memory>
        ensures rule { rule pick.new ≡ rule pick.old }
        ensures step { IfOk result (λ answer.
            Applies (rule pick.old) self.old.state (spoken command.now) answer self.new.state) }
        ensures said { IfOk result (CanBeSaid self.old.state.book.sheets) }
        ensures sheets { self.new.state.book.sheets ≡ self.old.state.book.sheets }
        ensures memory { OnErr result (IsInterrupted (rule pick.old) self.old.state
            (spoken command.now) self.new.state) }
        ensures others { IfOk result (λ _.
            OthersStay self.old.state (spoken command.now) self.new.state) }
        ensures counts { IfOk result (λ answer.
            Counts self.old.state (spoken command.now) answer self.new.state) }
        ensures complete { IfOk result
            (IsComplete (rule pick.old) self.old.state (spoken command.now)) }
        ensures keeps { IfOk result
            (λ answer. KeepsForms self.old (spoken command.now) answer self.new) }
        ensures right { AreRight (book_of self.new.state.book) (all_forms self.new.tables) }
        ensures counted { steps.old ≤ steps.new }
        ensures few { CountsFew self.old (spoken command.now) (steps.new - steps.old) }
    {
        self.book.forms_are_right();
        let answer = self.follow(command, pick, steps);
        self.book.forms_are_right();
        answer
    }

    // Does what the command says.
    fn follow<L: Ledger>(
        &mut self,
        command: &Command,
        pick: &mut Box<dyn Picker>,
        steps: &mut Steps<L>,
    ) -> Result<Answer, Memory>
        ensures rule { rule pick.new ≡ rule pick.old }
        ensures step { IfOk result (λ answer.
            Applies (rule pick.old) self.old.state (spoken command.now) answer self.new.state) }
        ensures said { IfOk result (CanBeSaid self.old.state.book.sheets) }
        ensures sheets { self.new.state.book.sheets ≡ self.old.state.book.sheets }
        ensures memory { OnErr result (IsInterrupted (rule pick.old) self.old.state
            (spoken command.now) self.new.state) }
        ensures complete { IfOk result
            (IsComplete (rule pick.old) self.old.state (spoken command.now)) }
        ensures follows { IfOk result
            (λ answer. FollowsCommand self.old (spoken command.now) answer self.new) }
        ensures counted { steps.old ≤ steps.new }
        ensures few { CountsFew self.old (spoken command.now) (steps.new - steps.old) }
    {
        match command {
            Command::Set(address, text) => self.set(address.as_str(), text.as_str()),
            Command::Clear(address) => Ok(self.clear(address.as_str())),
            Command::Name(sheet, name, text) => {
                self.name(sheet.as_str(), name.as_str(), text.as_str())
            }
            Command::Unname(sheet, name) => self.unname(sheet.as_str(), name.as_str()),
            Command::Show(address) => self.show(address.as_str()),
            Command::Model(sheet) => self.model(sheet.as_str(), steps),
            Command::Solve(sheet) => self.solve(sheet.as_str(), pick, steps),
            Command::Prices(sheet) => self.prices(sheet.as_str(), steps),
            Command::Begin(sheet) => self.begin(sheet.as_str(), steps),
            Command::Slice(sheet, units) => {
                self.slice(sheet.as_str(), units.as_str(), pick, steps)
            }
            Command::Stop(sheet) => Ok(self.stop(sheet.as_str())),
            Command::Budget(units) => Ok(self.set_budget(units.as_str())),
            Command::Cert(sheet) => self.certify(sheet.as_str(), pick, steps),
            Command::Save => self.save(),
            Command::Unknown => Ok(Answer::UnknownCommand),
        }
    }

    // Shows the cell that is named.
    fn show(&mut self, address: &str) -> Result<Answer, Memory>
        ensures step { IfOk result (λ answer. Does (Shows self.old.state) self.old.state
            (cell_named self.old.state.book.sheets address.now) answer self.new.state) }
        ensures said { IfOk result (CanBeSaid self.old.state.book.sheets) }
        ensures same { self.new ≡ self.old }
        ensures memory { OnErr result
            (IsUntouched self.old.state (Show address.now) self.new.state) }
    {
        match locate(self.book.sheets(), address) {
            Ok(cell) => self.show_cell(cell),
            Err(answer) => Ok(answer),
        }
    }

    // The value of a cell, or the wide cell.
    fn show_cell(&mut self, cell: Cell) -> Result<Answer, Memory>
        ensures step { IfOk result (λ answer. Shows self.old.state cell answer self.new.state) }
        ensures said { IfOk result (CanBeSaid self.old.state.book.sheets) }
        ensures same { self.new ≡ self.old }
    {
        self.book.workbook().texts_are_listed();
        match self.book.value(cell)? {
            Shown::Is(value) => Ok(Answer::Shown(value)),
            Shown::Wide(wide) => Ok(Answer::WideCell(wide)),
        }
    }
}
