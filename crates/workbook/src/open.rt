// Opening a workbook.
ghost use Rattle.std.specs.Prelude.{◌≡◌, ◌≢◌, ◌≤◌, ◌<◌, ◌++◌, ◌∷◌, [], All, IfOk, IfSome, MatchBool, OnOk, length, option_map, slice_get, string_bytes};
ghost use Rattle.cell_refs.specs.declared.limits.TheConstants.{FILE_BYTES, SHEETS};
ghost use Rattle.workbook.specs.Files.{SheetFile, is_new, name_in, sheet_in, with_name};
ghost use Rattle.workbook.specs.Determined.{OneOpening};
ghost use Rattle.workbook.specs.Found.{SavedAsFound};
ghost use Rattle.workbook.specs.Opening.{Opens};
ghost use Rattle.workbook.specs.Gathered.{FitsSheet};
ghost use Rattle.workbook.specs.Held.{put_all};
ghost use Rattle.workbook.specs.Opened.{GathersTexts, ListsSheets, PutsNames, ReadsFiles, ReadsNames, TextsFit, name_fault_of, sheet_fault_of};

use crate::gather::{Stop, count_formulas, texts_in};
use crate::names::{Name, Names};
use crate::words::is_name;
use crate::{File, OpenFault, Workbook};
use cell_refs::{COLUMNS, Cell, FORMULAS, NAMES, NameFault, ROWS, SheetId, SheetNames, TEXT_BYTES};
use memory::Memory;
use sheet_csv::{CsvLimits, Record, Rows, SheetFault, read_sheet};
use sheet_model::Text;
use std::alloc::Global;

impl Workbook {
    /// The workbook of some sheets' files, in their order, and of the bytes of the file of names. The first fault is answered of
    /// those that there are: two sheets of one name, a sheet's file, too many texts, too many formulas, the file of names, a
    /// record in it, too many names.
    pub fn open(alloc: Global, files: &[File], names: &[u8]) -> Result<Workbook, OpenFault>
        requires some { 0 < length files.now }
        requires few { length files.now ≤ SHEETS }
        requires stems { All (λ (f : SheetFile). f.stem ≢ []) files.now }
        requires sizes { All (λ (f : SheetFile). length f.bytes ≤ FILE_BYTES) files.now }
        requires names { length names.now ≤ FILE_BYTES }
        ensures { Opens files.now names.now result }
    {
        let sheets = sheets_of(alloc, files)?;
        let rows = read_files(alloc, files)?;
        let texts = texts_of(alloc, &rows)?;
        let names = names_of(alloc, &sheets, names)?;
        let Ok(workbook) = with_texts(Workbook::empty(alloc, sheets, names), texts) else {
            return Err(OpenFault::Memory);
        };
        Ok(workbook)
    }
}

/// But for want of memory, files are opened as one workbook, or have one fault.
pub fn files_open_in_one_way()
    ensures { OneOpening }
{}

/// Where each record of a file of names is a new name's, the names are saved under these records, with their comments.
pub fn names_are_saved_as_found()
    ensures { SavedAsFound }
{}

// The sheets' names.
fn sheets_of(alloc: Global, files: &[File]) -> Result<SheetNames, OpenFault>
    requires { length files.now ≤ SHEETS }
    ensures { ListsSheets files.now result }
{
    let mut sheets = SheetNames::new(alloc);
    for (place, file) in files.iter().enumerate() {
        match sheets.add(file.stem.as_str()) {
            Ok(_) => {}
            Err(NameFault::Taken) => return Err(OpenFault::DuplicateSheet(place as u8)),
            Err(NameFault::Full) => unreachable!(),
            Err(NameFault::Memory) => return Err(OpenFault::Memory),
        }
    }
    Ok(sheets)
}

// The records of each file.
fn read_files(alloc: Global, files: &[File]) -> Result<Vec<Rows>, OpenFault>
    requires few { length files.now ≤ SHEETS }
    requires sizes { All (λ (f : SheetFile). length f.bytes ≤ FILE_BYTES) files.now }
    ensures { ReadsFiles files.now result }
{
    let limits = CsvLimits {
        rows: u32::from(ROWS),
        columns: u32::from(COLUMNS),
        field: TEXT_BYTES,
    };
    let mut sheets = Vec::new(alloc);
    for (place, file) in files.iter().enumerate() {
        let rows = match read_sheet(alloc, &file.bytes, &limits) {
            Ok(rows) => rows,
            Err(fault) => return Err(sheet_fault(place as u8, fault)),
        };
        let Ok(()) = push_rows(&mut sheets, rows) else {
            return Err(OpenFault::Memory);
        };
    }
    Ok(sheets)
}

// Puts the records of a sheet behind the others.
fn push_rows(sheets: &mut Vec<Rows>, rows: Rows) -> Result<(), Memory>
    ensures { OnOk result (sheets.new.items ≡ sheets.old.items ++ rows ∷ []) }
{
    sheets.push(rows)?;
    Ok(())
}

// The fault of a sheet's file.
fn sheet_fault(sheet: u8, fault: SheetFault) -> OpenFault
    ensures { result ≡ sheet_fault_of sheet fault }
{
    match fault {
        SheetFault::NotUtf8(place) => OpenFault::Sheet(sheet, SheetFault::NotUtf8(place)),
        SheetFault::TooManyRows => OpenFault::Sheet(sheet, SheetFault::TooManyRows),
        SheetFault::TooManyColumns(row) => OpenFault::Sheet(sheet, SheetFault::TooManyColumns(row)),
        SheetFault::FieldTooLong(row) => OpenFault::Sheet(sheet, SheetFault::FieldTooLong(row)),
        SheetFault::Memory => OpenFault::Memory,
    }
}

// The fault of the file of names.
fn name_fault(fault: SheetFault) -> OpenFault
    ensures { result ≡ name_fault_of fault }
{
    match fault {
        SheetFault::NotUtf8(place) => OpenFault::NameFile(SheetFault::NotUtf8(place)),
        SheetFault::TooManyRows => OpenFault::NameFile(SheetFault::TooManyRows),
        SheetFault::TooManyColumns(row) => OpenFault::NameFile(SheetFault::TooManyColumns(row)),
        SheetFault::FieldTooLong(row) => OpenFault::NameFile(SheetFault::FieldTooLong(row)),
        SheetFault::Memory => OpenFault::Memory,
    }
}

// The texts of the cells.
fn texts_of(alloc: Global, sheets: &[Rows]) -> Result<Vec<(Cell, Text)>, OpenFault>
    requires few { length sheets.now ≤ SHEETS }
    requires fit { All FitsSheet sheets.now }
    ensures { GathersTexts sheets.now result }
{
    let texts = match texts_in(alloc, sheets) {
        Ok(texts) => texts,
        Err(Stop::Full) => return Err(OpenFault::TooManyCells),
        Err(Stop::Memory) => return Err(OpenFault::Memory),
    };
    if count_formulas(&texts) > FORMULAS {
        return Err(OpenFault::TooManyFormulas);
    }
    Ok(texts)
}

// The names of the file of names.
fn names_of(alloc: Global, sheets: &SheetNames, bytes: &[u8]) -> Result<Names, OpenFault>
    requires { length bytes.now ≤ FILE_BYTES }
    ensures { ReadsNames sheets.now bytes.now result }
{
    let limits = CsvLimits {
        rows: u32::MAX,
        columns: u32::MAX,
        field: TEXT_BYTES,
    };
    let rows = match read_sheet(alloc, bytes, &limits) {
        Ok(rows) => rows,
        Err(fault) => return Err(name_fault(fault)),
    };
    let names = names_in(alloc, sheets, &rows)?;
    if rows.len() > NAMES {
        return Err(OpenFault::TooManyNames);
    }
    Ok(names)
}

/// The names of the records.
pub(crate) fn names_in(alloc: Global, sheets: &SheetNames, rows: &Rows) -> Result<Names, OpenFault>
    requires { length rows.now < 4294967296 }
    ensures { PutsNames sheets.now rows.now result }
{
    let mut names = Names::new(alloc);
    for place in 0..rows.len() {
        let Ok(is_new) = put_name(alloc, sheets, rows.at(place), &mut names) else {
            return Err(OpenFault::Memory);
        };
        if !is_new {
            return Err(OpenFault::BadNameRow(place as u32));
        }
    }
    Ok(names)
}

// Puts the name of a record behind the others, if it is one and is not there yet, and says so.
fn put_name(
    alloc: Global,
    sheets: &SheetNames,
    fields: &Record,
    names: &mut Names,
) -> Result<bool, Memory>
    ensures { IfOk result (λ fresh. (fresh ≡ is_new names.old (name_in sheets.now fields.now))
        × MatchBool fresh (names.new
        ≡ with_name names.old (name_in sheets.now fields.now)) (names.new ≡ names.old)) }
{
    match name_in(alloc, sheets, fields)? {
        Some(name) => names.add(alloc, name),
        None => Ok(false),
    }
}

// The name of a record; none where it is of another form.
fn name_in(alloc: Global, sheets: &SheetNames, fields: &Record) -> Result<Option<Name>, Memory>
    ensures { IfOk result (λ found. found ≡ name_in sheets.now fields.now) }
{
    let count = fields.len();
    if count < 3 || count > 4 {
        return Ok(None);
    }
    let sheet_text = fields.text(0);
    let name = fields.text(1);
    let text = fields.text(2);
    let Some(sheet) = sheet_in(sheets, sheet_text) else {
        return Ok(None);
    };
    if !is_name(name) {
        return Ok(None);
    }
    let sheet_text = String::from_str(alloc, sheet_text)?;
    let name = String::from_str(alloc, name)?;
    let text = String::from_str(alloc, text)?;
    let comment = comment_in(alloc, fields)?;
    Ok(Some(Name {
        sheet,
        sheet_text,
        name,
        text,
        comment,
    }))
}

// The comment of a record: its fourth field, if it has one.
fn comment_in(alloc: Global, fields: &Record) -> Result<Option<String>, Memory>
    ensures { IfOk result (λ comment. option_map string_bytes comment ≡ slice_get fields.now 3) }
{
    match fields.get(3) {
        Some(text) => Ok(Some(String::from_str(alloc, text)?)),
        None => Ok(None),
    }
}

/// The sheet of a name, or none for the whole workbook, where there is no text; none at all where there is no such sheet.
pub fn sheet_in(sheets: &SheetNames, text: &str) -> Option<Option<SheetId>>
    ensures sheet { option_map (option_map (λ s. s.0)) result ≡ sheet_in sheets.now text.now }
    ensures listed { IfSome result (λ sheet. IfSome sheet (λ s. s.0 < length sheets.now)) }
{
    if text.is_empty() {
        return Some(None);
    }
    match sheets.find(text) {
        Some(id) => Some(Some(id)),
        None => None,
    }
}

/// The workbook with all texts in their cells, the last of them first.
pub(crate) fn with_texts(
    mut workbook: Workbook,
    mut texts: Vec<(Cell, Text)>,
) -> Result<Workbook, Memory>
    requires { TextsFit workbook texts.items }
    ensures { IfOk result (λ w. w
        ≡ record workbook { contents = put_all texts.items workbook.contents }) }
{
    while let Some((cell, text)) = texts.pop() {
        workbook.put(cell, text)?;
    }
    Ok(workbook)
}
