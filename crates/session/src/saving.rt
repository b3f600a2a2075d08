// Saving the files that have changed.
ghost use Rattle.std.specs.Prelude.{◌≡◌, ◌≢◌, [], IfOk, OnErr};
ghost use Rattle.commands.specs.Commands.{Save};
ghost use Rattle.commands.specs.Lines.{CanBeSaid};
ghost use Rattle.session.specs.Interrupted.{IsUntouched};
ghost use Rattle.session.specs.Saves.{Saves, changed_from};
ghost use Rattle.session.specs.States.{with_none_changed};

use crate::Session;
use cell_refs::SheetId;
use commands::{Answer, Memory, SaveFile};
use saved_sheets::{names_file, sheet_file};

impl Session {
    /// Says that the files are written that an answer has named: none counts as changed any more.
    pub fn saved(&mut self)
        ensures state { self.new.state ≡ with_none_changed self.old.state }
        ensures tables { self.new.tables ≡ self.old.tables }
    {
        self.changed_sheets.fill(false);
        self.changed_names = false;
    }

    // The files that have changed: those of the sheets in their order, and then that of the names.
    pub(crate) fn save(&self) -> Result<Answer, Memory>
        ensures step { IfOk result (λ answer. Saves self.now.state answer self.now.state) }
        ensures said { IfOk result (CanBeSaid self.now.state.book.sheets) }
        ensures memory { OnErr result (IsUntouched self.now.state Save self.now.state) }
    {
        let mut files = self.changed_files()?;
        if self.changed_names {
            let bytes = names_file(self.alloc, self.book.workbook())?;
            files.push(SaveFile::new(None, bytes))?;
        }
        Ok(Answer::ToSave(files))
    }

    // The files of the sheets that have changed, in their order.
    fn changed_files(&self) -> Result<Vec<SaveFile>, Memory>
        ensures files { IfOk result (λ files. files.items
            ≡ changed_from self.now.state.book 0 self.now.state.changed.sheets) }
        ensures memory { OnErr result
            (changed_from self.now.state.book 0 self.now.state.changed.sheets ≢ []) }
    {
        let mut files = Vec::new(self.alloc);
        for place in 0..self.book.sheets().len() {
            let changed = self.changed_sheets[place];
            if changed {
                let sheet = SheetId(place as u8);
                let bytes = sheet_file(self.alloc, self.book.workbook(), sheet)?;
                files.push(SaveFile::new(Some(sheet), bytes))?;
            }
        }
        Ok(files)
    }
}
