// A workbook.
ghost use Rattle.std.specs.Prelude.{◌≡◌, ◌&&◌, ◌<◌, ◌≤◌, ◌≢◌, [], All, IfOk, OnErr, OnOk, false, length, nat_le, nat_lt, not};
ghost use Rattle.std.specs.FinMap as finmap;
ghost use Rattle.cell_refs.specs.declared.limits.TheConstants.{TEXT_BYTES};
ghost use Rattle.workbook.specs.Contents.{content_of};
ghost use Rattle.workbook.specs.Edits.{Sets, after_set, is_outside, set_fault};
ghost use Rattle.cell_refs.specs.Listed.{IsListed};
ghost use Rattle.workbook.specs.Known.{names_in};
ghost use Rattle.workbook.specs.State.{formula_count, is_formula_text, text_count, with_text};
ghost use Rattle.workbook.specs.Room.{HasRoom};
ghost use Rattle.workbook.specs.Changed.{after_change};
ghost use Rattle.workbook.specs.Naming.{SayOtherwise};
ghost use Rattle.workbook.specs.Scoped.{IsShort};

use crate::EditFault;
use crate::change::Change;
use crate::held::{Held, put_in, say_otherwise, take_away};
use crate::named::Scope;
use crate::names::Names;
use crate::renamed::{Edit, cells_of, sayings_after};
use crate::say::hold;
use crate::users::Users;
use crate::words::{is_formula, one};
use cell_refs::{COLUMNS, Cell, FORMULAS, ROWS, SheetId, SheetNames, TEXT_BYTES, TEXTS};
use memory::Memory;
use sheet_model::Text;
use std::alloc::Global;
use std::collections::BTreeMap;
use std::marker::Model;
use std::mem::drop;

mod cells;
mod laws;
mod several;

/// The sheets of a workbook, the texts of their cells, and the names.
#[derive(Drop)]
pub struct Workbook {
    alloc: Global,
    sheets: SheetNames,
    names: Names,
    cells: BTreeMap<Cell, Held>,
    users: Users,
    formulas: usize,
}

impl Model for Workbook {
    ghost use Rattle.workbook.specs.State.{State};
    ghost use Rattle.workbook.specs.Codes.{state_code};
    ghost use Rattle.workbook.specs.Held.{contents_of};
    ghost use Rattle.workbook.specs.Users.{IsIndexed};

    ghost Value = { State };

    ghost coded = { state_code };

    ghost view = { λ w.
        record { sheets = w.sheets; contents = contents_of w.cells.entries; names = w.names } };

    ghost invariant = { λ w. IsIndexed w.sheets w.names w.users w.cells.entries w.formulas };
}

impl Workbook {
    // A workbook without texts.
    pub(crate) fn empty(alloc: Global, sheets: SheetNames, names: Names) -> Workbook
        requires { All IsShort names }
        ensures { result ≡ record { sheets = sheets; contents = finmap.empty; names = names } }
    {
        Workbook {
            alloc,
            sheets,
            names,
            cells: BTreeMap::new(alloc),
            users: Users::new(alloc),
            formulas: 0,
        }
    }

    /// Puts a text into a cell; an empty one takes away what the cell has, for which no memory is wanted. After a fault nothing has
    /// changed.
    pub fn set(&mut self, cell: Cell, text: &str) -> Result<(), EditFault>
        requires listed { cell.sheet.0 < length self.old.sheets }
        ensures { Sets self.old cell text.now result self.new }
    {
        if let Some(fault) = self.fault_of(cell, text) {
            return Err(fault);
        }
        if text.is_empty() {
            self.clear(cell);
            return Ok(());
        }
        let Ok(text) = String::from_str(self.alloc, text) else {
            return Err(EditFault::Memory);
        };
        let Ok(()) = self.put(cell, Text::new(text)) else {
            return Err(EditFault::Memory);
        };
        Ok(())
    }

    // Why a text isn't put into a cell, if it isn't.
    fn fault_of(&self, cell: Cell, text: &str) -> Option<EditFault>
        ensures { result ≡ set_fault self.now cell text.now }
    {
        if is_outside(cell) {
            return Some(EditFault::OutOfSheet);
        }
        if is_long(text) {
            return Some(EditFault::FieldTooLong);
        }
        if self.would_be_full(cell, text) {
            return Some(EditFault::TooManyCells);
        }
        if self.would_have_too_many(cell, text) {
            return Some(EditFault::TooManyFormulas);
        }
        None
    }

    // Whether there would be too many texts with this one in the cell.
    fn would_be_full(&self, cell: Cell, text: &str) -> bool
        ensures { result ≡ nat_lt TEXTS (text_count (with_text self.now.contents cell text.now)) }
    {
        let count = self.cells.len();
        if text.is_empty() {
            return false;
        }
        let has_text = self.cells.contains_key(&cell);
        is_one_more(count, TEXTS, !has_text)
    }

    // Whether too many texts would begin a formula with this one in the cell.
    fn would_have_too_many(&self, cell: Cell, text: &str) -> bool
        ensures { result
            ≡ nat_lt FORMULAS (formula_count (with_text self.now.contents cell text.now)) }
    {
        let count = self.formulas;
        if text.is_empty() {
            return false;
        }
        let was_one = self.has_formula(cell);
        is_one_more(count, FORMULAS, is_one_now(text, was_one))
    }

    // Whether the cell has a text that begins a formula.
    fn has_formula(&self, cell: Cell) -> bool
        ensures { result ≡ is_formula_text (content_of self.now.contents cell) }
    {
        match self.cells.get(&cell) {
            Some(held) => is_formula(held.text.as_str()),
            None => false,
        }
    }

    // Puts a text into a cell.
    pub(crate) fn put(&mut self, cell: Cell, text: Text) -> Result<(), Memory>
        requires listed { IsListed self.old.sheets cell }
        requires some { text ≢ [] }
        requires short { length text ≤ TEXT_BYTES }
        requires room { HasRoom self.old.contents cell text }
        ensures ok { OnOk result (self.new
            ≡ record self.old { contents = finmap.insert self.old.contents cell text }) }
        ensures err { OnErr result (self.new ≡ self.old) }
    {
        let scope = Scope {
            home: cell.sheet,
            sheets: &self.sheets,
            names: &self.names,
            change: None,
        };
        let is_one = is_formula(text.as_str());
        let held = hold(self.alloc, &scope, cell, text)?;
        let was_one = self.has_formula(cell);
        self.users.add_names(self.alloc, cell, &held)?;
        drop(put_in(&mut self.cells, cell, held)?);
        self.formulas = self.formulas + one(is_one) - one(was_one);
        Ok(())
    }

    // Where memory is taken from.
    pub(crate) fn alloc(&self) -> Global {
        self.alloc
    }

    // The names, whose texts are no longer than a field.
    pub(crate) fn names(&self) -> &Names
        ensures names { result.now ≡ self.now.names }
        ensures short { All IsShort self.now.names }
    {
        &self.names
    }

    // The sheets and the names by which the texts on a sheet are read.
    pub(crate) fn scope(&self, home: SheetId) -> Scope<'_>
        ensures home { result.home ≡ home }
        ensures sheets { result.sheets.now ≡ self.now.sheets }
        ensures names { names_in result ≡ self.now.names }
        ensures short { All IsShort self.now.names }
    {
        Scope {
            home,
            sheets: &self.sheets,
            names: &self.names,
            change: None,
        }
    }

    // Makes an edit of one name, and answers the cells that say something else now.
    pub(crate) fn rename(&mut self, change: Change) -> Result<Vec<Cell>, Memory>
        requires short { All IsShort (after_change self.old.names change) }
        ensures names { OnOk result (self.new
            ≡ record self.old { names = after_change self.old.names change }) }
        ensures told { IfOk result (λ cells. SayOtherwise self.old self.new cells.items) }
        ensures err { OnErr result (self.new ≡ self.old) }
    {
        let edit = Edit {
            sheets: &self.sheets,
            before: &self.names,
            change: &change,
            name: change.name.as_str(),
        };
        let said = sayings_after(self.alloc, &edit, &self.users, &self.cells)?;
        let cells = cells_of(self.alloc, &said)?;
        self.names.change(self.alloc, change)?;
        say_otherwise(&mut self.cells, said);
        Ok(cells)
    }

    /// Takes away the text of a cell.
    pub fn clear(&mut self, cell: Cell)
        requires listed { cell.sheet.0 < length self.old.sheets }
        requires inside { is_outside cell ≡ false }
        ensures { self.new ≡ after_set self.old cell [] }
    {
        let was_one = self.has_formula(cell);
        take_away(&mut self.cells, cell);
        self.formulas -= one(was_one);
    }
}

/// Whether the cell lies past the last row or column.
pub(crate) fn is_outside(cell: Cell) -> bool
    ensures { result ≡ is_outside cell }
{
    cell.row >= ROWS || cell.col >= COLUMNS
}

// Whether a text is longer than a field.
pub(crate) fn is_long(text: &str) -> bool
    ensures { result ≡ nat_lt TEXT_BYTES (length text.now) }
{
    text.len() > TEXT_BYTES as usize
}

// Whether it is one more than there may be.
fn is_one_more(count: usize, most: usize, is_new: bool) -> bool
    ensures { result ≡ (nat_le most count && is_new) }
{
    count >= most && is_new
}

// Whether a text begins a formula where none was.
fn is_one_now(text: &str, was_one: bool) -> bool
    ensures { result ≡ (is_formula_text text.now && not was_one) }
{
    is_formula(text) && !was_one
}
