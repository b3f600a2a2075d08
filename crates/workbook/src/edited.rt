// Edits of a workbook's names.
ghost use Rattle.std.specs.Prelude.{◌≡◌, ◌<◌, All, IfOk, IfSome, length, option_map};
ghost use Rattle.workbook.specs.Changed.{after_change};
ghost use Rattle.workbook.specs.EditedNames.{without};
ghost use Rattle.workbook.specs.Naming.{names_after, spelling_of};
ghost use Rattle.workbook.specs.Scoped.{IsShort};

use crate::Workbook;
use crate::change::{Change, Given};
use cell_refs::SheetId;
use memory::Memory;

impl Workbook {
    /// The edit by which a name gets a text.
    pub(crate) fn naming(
        &self,
        sheet: Option<SheetId>,
        name: &str,
        text: &str,
    ) -> Result<Change, Memory>
        requires listed { IfSome sheet (λ s. s.0 < length self.now.sheets) }
        ensures names { IfOk result (λ change. after_change self.now.names change
            ≡ names_after self.now (option_map (λ s. s.0) sheet) name.now text.now) }
        ensures short { IfOk result (λ _. All IsShort self.now.names) }
    {
        let alloc = self.alloc();
        // (this call lends the proof that the names are short)
        let _names = self.names();
        let given = Given {
            sheet_text: String::from_str(alloc, self.spelling(sheet))?,
            text: String::from_str(alloc, text)?,
        };
        Ok(Change {
            sheet,
            name: String::from_str(alloc, name)?,
            given: Some(given),
        })
    }

    // A sheet's own spelling; nothing for the whole workbook.
    fn spelling(&self, sheet: Option<SheetId>) -> &str
        requires listed { IfSome sheet (λ s. s.0 < length self.now.sheets) }
        ensures { result.now ≡ spelling_of self.now.sheets (option_map (λ s. s.0) sheet) }
    {
        match sheet {
            Some(sheet) => self.sheets().at(sheet),
            None => "",
        }
    }

    /// The edit by which a name is taken away.
    pub(crate) fn unnaming(&self, sheet: Option<SheetId>, name: &str) -> Result<Change, Memory>
        ensures names { IfOk result (λ change. after_change self.now.names change
            ≡ without (option_map (λ s. s.0) sheet) name.now self.now.names) }
        ensures short { IfOk result (λ _. All IsShort self.now.names) }
    {
        // (this call lends the proof that the names are short)
        let _names = self.names();
        Ok(Change {
            sheet,
            name: String::from_str(self.alloc(), name)?,
            given: None,
        })
    }
}
