// Why a workbook is not opened, and why an edit is refused.

use cell_refs::Cell;
use sheet_csv::SheetFault;
use thiserror::Error;

/// Why a workbook is not opened: sheets and records by their number, from 0.
#[derive(Clone, Copy, Debug, PartialEq, Eq, Error)]
pub enum OpenFault {
    #[error("sheet {0}: {1}")]
    Sheet(u8, SheetFault),
    #[error("too many cells have a text")]
    TooManyCells,
    #[error("too many cells have a formula")]
    TooManyFormulas,
    #[error("sheet {0} has the name of an earlier one")]
    DuplicateSheet(u8),
    #[error("record {0} of the names is no new name")]
    BadNameRow(u32),
    #[error("there are too many names")]
    TooManyNames,
    #[error("names: {0}")]
    NameFile(SheetFault),
    #[error("memory ran out")]
    Memory,
}

/// Why an edit is refused.
#[derive(Clone, Copy, Debug, PartialEq, Eq, Error)]
pub enum EditFault {
    #[error("the cell is outside of its sheet")]
    OutOfSheet,
    #[error("the text is too long")]
    FieldTooLong,
    #[error("too many cells would have a text")]
    TooManyCells,
    #[error("too many cells would have a formula")]
    TooManyFormulas,
    #[error("this is no name")]
    BadName,
    #[error("there would be too many names")]
    TooManyNames,
    #[error("memory ran out")]
    Memory,
}

/// Why texts are not put into their cells.
#[derive(Clone, Copy, Debug, PartialEq, Eq, Error)]
pub enum AllFault {
    /// The first cell whose text, after those before it, has no room.
    #[error("a text has no room")]
    NoRoom(Cell),
    #[error("memory ran out")]
    Memory,
}
