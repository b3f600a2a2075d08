// Reading the files that the words name.
ghost use Rattle.std.specs.Prelude.{◌≡◌, ◌≤◌, ◌<◌, All, IfOk, IfSome, length, string_bytes, true};
ghost use Rattle.std.specs.FinMap.{get};
ghost use Rattle.run_inputs.specs.Inputs.{CanBeOpened, EndCause, OpensFiles, ReadsFile, ReadsSheet, ReadsSheets};
ghost use Rattle.command_line.specs.Words.{is_sheet, texts_of};
ghost use Rattle.command_line.specs.Read.{named_of};

use crate::stop::{Cause, End, Input, Limit, Stop};
use cell_refs::{FILE_BYTES, SHEETS};
use command_line::{Named, stem_of};
use solver_io::{Folder, ReadEnd};
use std::alloc::Global;
use workbook::{File, Workbook};

/// Reads the names and then the sheets, and opens the workbook that they spell. No file is read where too many sheets are named.
pub fn open_files<F: Folder>(alloc: Global, named: &Named, folder: &mut F) -> Result<Workbook, End>
    requires some { 0 < length named.now.sheets.items }
    requires sheets { All (λ w. is_sheet (string_bytes w) ≡ true) named.now.sheets.items }
    ensures many { SHEETS < length named.now.sheets.items
        → result ≡ Err (End.Stopped (Stop.TooMuch Limit.Sheets)) }
    ensures opens { IfSome (F.content folder.old)
        (λ files. OpensFiles (named_of named.now) files result) }
    ensures count { IfOk result (λ book. length book.sheets ≡ length named.now.sheets.items) }
    ensures same { F.content folder.new ≡ F.content folder.old }
    ensures cause { EndCause (F.read_faults folder.old) (F.read_faults folder.new) result }
    ensures writes { F.write_faults folder.new ≡ F.write_faults folder.old }
    ensures wants { F.write_wants folder.new ≡ F.write_wants folder.old }
{
    if named.sheets.len() > SHEETS {
        return Err(End::Stopped(Stop::TooMuch(Limit::Sheets)));
    }
    let names = read_file(alloc, folder, Input::Names, named.names.as_str())?;
    let sheets = read_sheets(alloc, folder, &named.sheets)?;
    match Workbook::open(alloc, &sheets, &names) {
        Ok(book) => Ok(book),
        Err(fault) => match Stop::of_files(fault) {
            Some(stop) => Err(End::Stopped(stop)),
            None => Err(End::Memory),
        },
    }
}

// Reads the files of the sheets.
fn read_sheets<F: Folder>(alloc: Global, folder: &mut F, words: &[String]) -> Result<Vec<File>, End>
    requires few { length words.now ≤ SHEETS }
    requires sheets { All (λ w. is_sheet (string_bytes w) ≡ true) words.now }
    ensures reads { IfSome (F.content folder.old)
        (λ files. ReadsSheets files (texts_of words.now) result) }
    ensures count { IfOk result (λ files. length files.items ≡ length words.now) }
    ensures open { IfOk result (λ files. All CanBeOpened files.items) }
    ensures same { F.content folder.new ≡ F.content folder.old }
    ensures cause { EndCause (F.read_faults folder.old) (F.read_faults folder.new) result }
    ensures writes { F.write_faults folder.new ≡ F.write_faults folder.old }
    ensures wants { F.write_wants folder.new ≡ F.write_wants folder.old }
{
    let mut files = Vec::new(alloc);
    for (place, word) in words.iter().enumerate() {
        let file = read_sheet(alloc, folder, place as u8, word.as_str())?;
        let Ok(()) = files.push(file) else {
            return Err(End::Memory);
        };
    }
    Ok(files)
}

// Reads the file of a sheet, by the sheet's number.
fn read_sheet<F: Folder>(alloc: Global, folder: &mut F, place: u8, word: &str) -> Result<File, End>
    requires { is_sheet word.now ≡ true }
    ensures reads { IfSome (F.content folder.old)
        (λ files. ReadsSheet (Input.Sheet place) word.now (get files word.now) result) }
    ensures open { IfOk result CanBeOpened }
    ensures same { F.content folder.new ≡ F.content folder.old }
    ensures cause { EndCause (F.read_faults folder.old) (F.read_faults folder.new) result }
    ensures writes { F.write_faults folder.new ≡ F.write_faults folder.old }
    ensures wants { F.write_wants folder.new ≡ F.write_wants folder.old }
{
    let bytes = read_file(alloc, folder, Input::Sheet(place), word)?;
    let Some(stem) = stem_of(word) else {
        unreachable!()
    };
    let Ok(stem) = String::from_str(alloc, stem) else {
        return Err(End::Memory);
    };
    Ok(File::new(stem, bytes))
}

// Reads the file of an input.
fn read_file<F: Folder>(
    alloc: Global,
    folder: &mut F,
    input: Input,
    word: &str,
) -> Result<Vec<u8>, End>
    ensures reads { IfSome (F.content folder.old)
        (λ files. ReadsFile input (get files word.now) result) }
    ensures fits { IfOk result (λ bytes. length bytes.items ≤ FILE_BYTES) }
    ensures same { F.content folder.new ≡ F.content folder.old }
    ensures cause { EndCause (F.read_faults folder.old) (F.read_faults folder.new) result }
    ensures writes { F.write_faults folder.new ≡ F.write_faults folder.old }
    ensures wants { F.write_wants folder.new ≡ F.write_wants folder.old }
{
    let mut bytes = Vec::new(alloc);
    match folder.read(word, FILE_BYTES, &mut bytes) {
        ReadEnd::Whole => Ok(bytes),
        ReadEnd::Missing => Err(End::Stopped(Stop::BadInput(input, Cause::Missing))),
        ReadEnd::TooLong => Err(End::Stopped(Stop::TooMuch(Limit::FileBytes))),
        ReadEnd::Failed => Err(End::Failed),
        ReadEnd::Memory => Err(End::Memory),
    }
}
