// Why a run ends before the first record of its script.
ghost use Rattle.std.specs.Prelude.{◌≡◌, ◌++◌, IfOk, OnOk, string_bytes};
ghost use Rattle.std.specs.Fmt.{decimal};
ghost use Rattle.run_inputs.specs.Stops.{cause_text, file_stop, input_text, kind_text, most_of, open_stop, status_of, stop_line, stop_text};
ghost use Rattle.command_line.specs.Read.{named_of};

use crate::Status;
use cell_refs::{COLUMNS, FILE_BYTES, FORMULAS, NAMES, ROWS, SHEETS, TEXT_BYTES, TEXTS};
use command_line::Named;
use itoa::Buffer;
use sheet_csv::SheetFault;
use std::alloc::{AllocError, Global};
use workbook::OpenFault;

/// Of what there is too much.
#[derive(Clone, Copy, Debug, PartialEq, Eq)]
pub enum Limit {
    Sheets,
    FileBytes,
    ScriptBytes,
    Rows,
    Columns,
    FieldBytes,
    Cells,
    Formulas,
    Names,
}

/// What a run reads: the file of names, the file of the sheet of this number, or the script.
#[derive(Clone, Copy, Debug, PartialEq, Eq)]
pub enum Input {
    Names,
    Sheet(u8),
    Script,
}

/// Why an input can't be taken.
#[derive(Clone, Copy, Debug, PartialEq, Eq)]
pub enum Cause {
    Missing,
    /// The place of the first byte that is no text.
    NotUtf8(u32),
    DuplicateSheet,
    /// The number of the first record that is no new name, from 0.
    NameRow(u32),
}

/// Why a run ends before the first record of its script.
#[derive(Clone, Copy, Debug, PartialEq, Eq)]
pub enum Stop {
    TooMuch(Limit),
    BadInput(Input, Cause),
}

/// Why nothing is answered: a cause that is printed, a call of the folder or the script that failed, or want of memory.
#[derive(Clone, Copy, Debug, PartialEq, Eq)]
pub enum End {
    Stopped(Stop),
    Failed,
    Memory,
}

impl Stop {
    /// The cause of a fault of the files; none for want of memory.
    pub(crate) fn of_files(fault: OpenFault) -> Option<Stop>
        ensures { result ≡ open_stop fault }
    {
        match fault {
            OpenFault::Sheet(place, fault) => Stop::of_file(Input::Sheet(place), fault),
            OpenFault::TooManyCells => Some(Stop::TooMuch(Limit::Cells)),
            OpenFault::TooManyFormulas => Some(Stop::TooMuch(Limit::Formulas)),
            OpenFault::DuplicateSheet(place) => {
                Some(Stop::BadInput(Input::Sheet(place), Cause::DuplicateSheet))
            }
            OpenFault::BadNameRow(row) => Some(Stop::BadInput(Input::Names, Cause::NameRow(row))),
            OpenFault::TooManyNames => Some(Stop::TooMuch(Limit::Names)),
            OpenFault::NameFile(fault) => Stop::of_file(Input::Names, fault),
            OpenFault::Memory => None,
        }
    }

    // The cause of a fault within a file; none for want of memory.
    fn of_file(input: Input, fault: SheetFault) -> Option<Stop>
        ensures { result ≡ file_stop input fault }
    {
        match fault {
            SheetFault::NotUtf8(place) => Some(Stop::BadInput(input, Cause::NotUtf8(place))),
            SheetFault::TooManyRows => Some(Stop::TooMuch(Limit::Rows)),
            SheetFault::TooManyColumns(_) => Some(Stop::TooMuch(Limit::Columns)),
            SheetFault::FieldTooLong(_) => Some(Stop::TooMuch(Limit::FieldBytes)),
            SheetFault::Memory => None,
        }
    }

    /// The status with which the run ends.
    pub fn status(self) -> Status
        ensures { result ≡ status_of self }
    {
        match self {
            Stop::TooMuch(_) => Status::Limit,
            Stop::BadInput(_, _) => Status::BadInput,
        }
    }

    /// The line that the run prints.
    pub fn line(self, alloc: Global, named: &Named) -> Result<String, AllocError>
        ensures { IfOk result (λ t. string_bytes t ≡ stop_line (named_of named.now) self) }
    {
        let mut text = String::new(alloc);
        match self {
            Stop::TooMuch(limit) => {
                text.push_str("limit ")?;
                text.push_str(limit.kind())?;
                text.push_str(" ")?;
                say_number(limit.most(), &mut text)?;
            }
            Stop::BadInput(input, cause) => {
                text.push_str("bad-input ")?;
                text.push_str(input.text(named))?;
                text.push_str(" ")?;
                cause.say(&mut text)?;
            }
        }
        text.push_str("\n")?;
        Ok(text)
    }
}

impl Limit {
    // Its name.
    fn kind(self) -> &'static str
        ensures { result.now ≡ kind_text self }
    {
        match self {
            Limit::Sheets => "sheets",
            Limit::FileBytes => "file",
            Limit::ScriptBytes => "script",
            Limit::Rows => "rows",
            Limit::Columns => "columns",
            Limit::FieldBytes => "field",
            Limit::Cells => "cells",
            Limit::Formulas => "formulas",
            Limit::Names => "names",
        }
    }

    // The most that there may be of it.
    fn most(self) -> u64
        ensures { result ≡ most_of self }
    {
        match self {
            Limit::Sheets => SHEETS as u64,
            Limit::FileBytes | Limit::ScriptBytes => FILE_BYTES as u64,
            Limit::Rows => u64::from(ROWS),
            Limit::Columns => u64::from(COLUMNS),
            Limit::FieldBytes => u64::from(TEXT_BYTES),
            Limit::Cells => TEXTS as u64,
            Limit::Formulas => FORMULAS as u64,
            Limit::Names => NAMES as u64,
        }
    }
}

impl Input {
    // The word of its file, or `script`.
    fn text(self, named: &Named) -> &str
        ensures { result.now ≡ input_text (named_of named.now) self }
    {
        match self {
            Input::Names => named.names.as_str(),
            Input::Sheet(place) => match named.sheets.get(usize::from(place)) {
                Some(word) => word.as_str(),
                None => "",
            },
            Input::Script => "script",
        }
    }
}

impl Cause {
    // Appends it, with its number if it has one.
    fn say(self, to: &mut String) -> Result<(), AllocError>
        ensures { OnOk result (string_bytes to.new ≡ string_bytes to.old ++ cause_text self) }
    {
        match self {
            Cause::Missing => to.push_str("missing")?,
            Cause::NotUtf8(place) => {
                to.push_str("not-utf8 ")?;
                say_number(u64::from(place), to)?;
            }
            Cause::DuplicateSheet => to.push_str("duplicate-sheet")?,
            Cause::NameRow(row) => {
                to.push_str("name-row ")?;
                say_number(u64::from(row) + 1, to)?;
            }
        }
        Ok(())
    }
}

// Appends the digits of a number.
fn say_number(number: u64, to: &mut String) -> Result<(), AllocError>
    ensures { OnOk result (string_bytes to.new ≡ string_bytes to.old ++ decimal number) }
{
    let mut digits = Buffer::new();
    to.push_str(digits.format(number))?;
    Ok(())
}
