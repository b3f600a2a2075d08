// Making a workbook of its parts.
ghost use Rattle.std.specs.Prelude.{◌≡◌, ◌<◌, All, None, length};
ghost use Rattle.cell_refs.specs.declared.limits.TheConstants.{TEXT_BYTES};
ghost use Rattle.sheet_csv.specs.Sheet.{first_long};
ghost use Rattle.workbook.specs.Gathered.{IsFieldText};
ghost use Rattle.workbook.specs.Parts.{IsMadeOf};

use crate::gather::count_formulas;
use crate::open::{names_in, with_texts};
use crate::{OpenFault, Workbook};
use cell_refs::{Cell, FORMULAS, NAMES, SheetNames, TEXTS};
use sheet_csv::Rows;
use sheet_model::Text;
use std::alloc::Global;

impl Workbook {
    /// The workbook of these sheets, texts of cells and records of names, in the place of the files that `open` reads: no text is
    /// empty, and each cell lies on a sheet and stands there once. The first fault is answered of those that there are: too many
    /// texts, too many formulas, a record that is no new name's, too many names.
    pub fn from_parts(
        alloc: Global,
        sheets: &SheetNames,
        cells: Vec<(Cell, Text)>,
        names: &Rows,
    ) -> Result<Workbook, OpenFault>
        requires fields { All (IsFieldText sheets.now) cells.items }
        requires short { first_long TEXT_BYTES names.now ≡ None }
        requires records { length names.now < 4294967296 }
        ensures { IsMadeOf sheets.now cells.items names.now result }
    {
        if cells.len() > TEXTS {
            return Err(OpenFault::TooManyCells);
        }
        if count_formulas(&cells) > FORMULAS {
            return Err(OpenFault::TooManyFormulas);
        }
        let found = names_in(alloc, sheets, names)?;
        if names.len() > NAMES {
            return Err(OpenFault::TooManyNames);
        }
        let Ok(sheets) = sheets.copy() else {
            return Err(OpenFault::Memory);
        };
        let Ok(workbook) = with_texts(Workbook::empty(alloc, sheets, found), cells) else {
            return Err(OpenFault::Memory);
        };
        Ok(workbook)
    }
}
