// Sheets, cells and areas.
ghost use Rattle.std.specs.Prelude.{◌≡◌, ◌<◌, ◌≤◌};
ghost use Rattle.cell_refs.specs.Areas.{IsOnSheet, area_len, between, bottom, cell_at, right, within};
ghost use Rattle.cell_refs.specs.declared.limits.TheConstants.{COLUMNS, ROWS};

use std::marker::Model;

/// A sheet, by its number from 0.
#[derive(Clone, Copy, Debug, PartialEq, Eq, PartialOrd, Ord, Hash)]
pub struct SheetId(pub u8);

/// A cell: its sheet, its row and its column, each from 0.
#[derive(Clone, Copy, Debug, PartialEq, Eq, PartialOrd, Ord, Hash)]
pub struct Cell {
    pub sheet: SheetId,
    pub row: u16,
    pub col: u16,
}

/// The cells of a sheet from a top left one to a bottom right one, within the limits on rows and columns.
#[derive(Clone, Copy, Debug, PartialEq, Eq)]
pub struct Area {
    sheet: SheetId,
    top: u16,
    left: u16,
    further_rows: u16,
    further_columns: u16,
}

impl Model for Area {
    ghost use Rattle.cell_refs.specs.Areas.{Area, IsOnSheet};
    ghost use Rattle.cell_refs.specs.StoredAreas.{area_of};

    ghost Value = { Area };

    ghost view = { area_of };

    ghost invariant = { λ a. IsOnSheet (area_of a) };

    ghost inverse = { λ x. record {
      sheet = x.sheet;
      top = x.top;
      left = x.left;
      further_rows = x.further_rows;
      further_columns = x.further_columns;
    } };
}

impl Area {
    /// The area that has both cells as corners. It lies on the first one's sheet.
    pub fn between(first: Cell, second: Cell) -> Area
        requires first { first.row < ROWS × first.col < COLUMNS }
        requires second { second.row < ROWS × second.col < COLUMNS }
        ensures { result ≡ between first second }
    {
        let top = first.row.min(second.row);
        let left = first.col.min(second.col);
        Area {
            sheet: first.sheet,
            top,
            left,
            further_rows: first.row.max(second.row) - top,
            further_columns: first.col.max(second.col) - left,
        }
    }

    /// The sheet on which it lies.
    pub fn sheet(self) -> SheetId
        ensures { result ≡ self.sheet }
    {
        self.sheet
    }

    /// Its first row, from 0.
    pub fn top(self) -> u16
        ensures value { result ≡ self.top }
        ensures on_sheet { IsOnSheet self }
    {
        self.top
    }

    /// Its first column, from 0.
    pub fn left(self) -> u16
        ensures value { result ≡ self.left }
        ensures on_sheet { IsOnSheet self }
    {
        self.left
    }

    /// Its last row, from 0.
    pub fn bottom(self) -> u16
        ensures value { result ≡ bottom self }
        ensures on_sheet { IsOnSheet self }
    {
        self.top + self.further_rows
    }

    /// Its last column, from 0.
    pub fn right(self) -> u16
        ensures value { result ≡ right self }
        ensures on_sheet { IsOnSheet self }
    {
        self.left + self.further_columns
    }

    /// How many cells it has.
    pub fn len(&self) -> u32
        ensures { result ≡ area_len self.now }
    {
        (self.further_rows as u32 + 1) * (self.further_columns as u32 + 1)
    }

    /// Whether it has the cell.
    pub fn has(&self, cell: Cell) -> bool
        ensures { result ≡ within self.now cell }
    {
        self.sheet == cell.sheet
            && self.top <= cell.row
            && cell.row <= self.top + self.further_rows
            && self.left <= cell.col
            && cell.col <= self.left + self.further_columns
    }

    /// The cell at a place, row by row from the top left one.
    pub fn at(&self, place: u32) -> Cell
        requires { place < area_len self.now }
        ensures { result ≡ cell_at self.now place }
    {
        let columns = self.further_columns as u32 + 1;
        Cell {
            sheet: self.sheet,
            row: self.top + (place / columns) as u16,
            col: self.left + (place % columns) as u16,
        }
    }
}
