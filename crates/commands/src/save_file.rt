// A file to be written.
ghost use Rattle.std.specs.Prelude.{◌≡◌, option_map};

use cell_refs::SheetId;
use std::marker::Model;

/// A file to be written: that of a sheet, or that of the names, and its bytes.
#[derive(Drop)]
pub struct SaveFile {
    sheet: Option<SheetId>,
    bytes: Vec<u8>,
}

impl Model for SaveFile {
    ghost use Rattle.std.specs.Prelude.{option_map};
    ghost use Rattle.commands.specs.Saved.{SavedFile, saved_code};

    ghost Value = { SavedFile };

    ghost coded = { saved_code };

    ghost view = { λ f. record { sheet = option_map (λ s. s.0) f.sheet; bytes = f.bytes.items } };
}

impl SaveFile {
    pub fn new(sheet: Option<SheetId>, bytes: Vec<u8>) -> SaveFile
        ensures { result ≡ record { sheet = option_map (λ s. s.0) sheet; bytes = bytes.items } }
    {
        SaveFile { sheet, bytes }
    }

    /// The sheet of which this is the file; none for the file of names.
    pub fn sheet(&self) -> Option<SheetId>
        ensures { option_map (λ s. s.0) result ≡ self.now.sheet }
    {
        self.sheet
    }

    pub fn bytes(&self) -> &[u8]
        ensures { result.now ≡ self.now.bytes }
    {
        &self.bytes
    }
}
