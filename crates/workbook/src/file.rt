// The file of a sheet.
ghost use Rattle.std.specs.Prelude.{◌≡◌, string_bytes};

use std::marker::Model;

/// The file of a sheet: the sheet's name, and the file's bytes.
#[derive(Drop)]
pub struct File {
    pub(crate) stem: String,
    pub(crate) bytes: Vec<u8>,
}

impl Model for File {
    ghost use Rattle.std.specs.Prelude.{string_bytes};
    ghost use Rattle.workbook.specs.Files.{SheetFile};
    ghost use Rattle.workbook.specs.Codes.{file_code};

    ghost Value = { SheetFile };

    ghost coded = { file_code };

    ghost view = { λ f. record { stem = string_bytes f.stem; bytes = f.bytes.items } };
}

impl File {
    pub fn new(stem: String, bytes: Vec<u8>) -> File
        ensures { result ≡ record { stem = string_bytes stem; bytes = bytes.items } }
    {
        File { stem, bytes }
    }
}
