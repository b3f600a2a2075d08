// Edits of names.
ghost use Rattle.std.specs.Prelude.{◌≡◌, ◌<◌, ◌+◌, if◌then◌else◌, IfOk, IfSome, length, nat_lt, option_map};
ghost use Rattle.cell_refs.specs.declared.limits.TheConstants.{NAMES};
ghost use Rattle.workbook.specs.Naming.{Names, Unnames, name_fault, unname_fault};
ghost use Rattle.workbook.specs.Saving.{saved_names};

use crate::words::is_name;
use crate::workbook::is_long;
use crate::{EditFault, Workbook};
use cell_refs::{Cell, NAMES, SheetId};
use memory::Memory;
use sheet_csv::Rows;

impl Workbook {
    /// Gives a name a text, for a sheet or for the whole workbook, and answers the cells that say something else now. A name that is
    /// there keeps its place, its spelling and its comment; a new one goes last and has none. After a fault nothing has changed.
    pub fn name(
        &mut self,
        sheet: Option<SheetId>,
        name: &str,
        text: &str,
    ) -> Result<Vec<Cell>, EditFault>
        requires listed { IfSome sheet (λ s. s.0 < length self.old.sheets) }
        ensures { Names self.old (option_map (λ s. s.0) sheet) name.now text.now result self.new }
    {
        if let Some(fault) = self.name_fault(sheet, name, text) {
            return Err(fault);
        }
        let Ok(change) = self.naming(sheet, name, text) else {
            return Err(EditFault::Memory);
        };
        let Ok(cells) = self.rename(change) else {
            return Err(EditFault::Memory);
        };
        Ok(cells)
    }

    /// Takes away a name of a sheet or of the whole workbook, where it is there, and answers the cells that say something else now. On
    /// want of memory nothing has changed.
    pub fn unname(&mut self, sheet: Option<SheetId>, name: &str) -> Result<Vec<Cell>, Memory>
        requires listed { IfSome sheet (λ s. s.0 < length self.old.sheets) }
        ensures { Unnames self.old (option_map (λ s. s.0) sheet) name.now result self.new }
    {
        let change = self.unnaming(sheet, name)?;
        self.rename(change)
    }

    /// The records of the names, in their order and as they are spelled.
    pub fn name_rows(&self) -> Result<Rows, Memory>
        ensures { IfOk result (λ rows. rows ≡ saved_names self.now.names) }
    {
        self.names().rows(self.alloc())
    }

    // Why a name doesn't get a text, if it doesn't.
    fn name_fault(&self, sheet: Option<SheetId>, name: &str, text: &str) -> Option<EditFault>
        ensures { result ≡ name_fault self.now (option_map (λ s. s.0) sheet) name.now text.now }
    {
        if !is_name(name) {
            return Some(EditFault::BadName);
        }
        if is_long(name) || is_long(text) {
            return Some(EditFault::FieldTooLong);
        }
        let is_there = self.names().find(sheet, name).is_some();
        if is_full(self.names().len(), is_there) {
            return Some(EditFault::TooManyNames);
        }
        None
    }
}

// Whether there would be too many names with one that is there or comes to them.
fn is_full(count: usize, is_there: bool) -> bool
    ensures { result ≡ nat_lt NAMES (if is_there then count else count + 1) }
{
    if is_there {
        count > NAMES
    } else {
        count >= NAMES
    }
}

/// Why a text is none of a name that can be removed, if it isn't.
pub fn unname_fault(name: &str) -> Option<EditFault>
    ensures { result ≡ unname_fault name.now }
{
    if !is_name(name) {
        return Some(EditFault::BadName);
    }
    if is_long(name) {
        return Some(EditFault::FieldTooLong);
    }
    None
}
