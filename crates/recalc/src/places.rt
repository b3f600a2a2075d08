// A number for each cell.
ghost use Rattle.std.specs.Prelude.{◌≡◌, ◌<◌, ◌==◌, [], OnOk, if◌then◌else◌, get_or, length, ℕ};
ghost use Rattle.std.specs.BTreeMap.{is_at};
ghost use Rattle.cell_refs.specs.declared.cell.Cell.{Cell};
ghost use Rattle.cell_refs.specs.Cells.{cell_cmp};
ghost use Rattle.recalc.specs.Places.{in_rows, place_in};

use cell_refs::{Cell, SheetId};
use memory::Memory;
use std::alloc::Global;
use std::marker::Model;

/// A number for each cell, found by its sheet, its row and its column: 0 where none was put.
#[derive(Drop)]
pub(crate) struct Places {
    sheets: Vec<SheetPlaces>,
}

impl Model for Places {
    ghost use Rattle.std.specs.Prelude.{List, ℕ};

    ghost Value = { List (List (List ℕ)) };

    ghost view = { λ p. p.sheets.items };
}

impl Places {
    /// No cell has a number.
    pub(crate) fn new(alloc: Global) -> Places
        ensures { result ≡ [] }
    {
        Places {
            sheets: Vec::new(alloc),
        }
    }

    /// The number of a cell.
    pub(crate) fn at(&self, cell: Cell) -> u32
        ensures { result ≡ place_in self.now cell }
    {
        match self.sheets.get(cell.sheet.0 as usize) {
            Some(sheet) => sheet.at(cell.row, cell.col),
            None => 0,
        }
    }

    /// The numbers of the rows of a sheet.
    pub(crate) fn rows(&self, sheet: SheetId) -> &[RowPlaces]
        ensures { result.now ≡ get_or self.now sheet.0 [] }
    {
        match self.sheets.get(sheet.0 as usize) {
            Some(sheet) => &sheet.rows,
            None => &[],
        }
    }

    /// Puts a cell's number in place of what it had.
    pub(crate) fn put(&mut self, cell: Cell, place: u32) -> Result<(), Memory>
        ensures { OnOk result ((q : Cell) → place_in self.new q
            ≡ (if is_at (cell_cmp cell) q then place else place_in self.old q)) }
    {
        let alloc = *self.sheets.allocator();
        let number = cell.sheet.0 as usize;
        for _ in self.sheets.len()..number + 1 {
            self.sheets.push(SheetPlaces::new(alloc))?;
        }
        self.sheets[number].put(cell.row, cell.col, place)
    }
}

// A number for each cell of one sheet, found by its row and its column.
#[derive(Drop)]
struct SheetPlaces {
    rows: Vec<RowPlaces>,
}

impl Model for SheetPlaces {
    ghost use Rattle.std.specs.Prelude.{List, ℕ};

    ghost Value = { List (List ℕ) };

    ghost view = { λ s. s.rows.items };
}

impl SheetPlaces {
    fn new(alloc: Global) -> SheetPlaces
        ensures { result ≡ [] }
    {
        SheetPlaces {
            rows: Vec::new(alloc),
        }
    }

    fn at(&self, row: u16, col: u16) -> u32
        ensures { result ≡ in_rows self.now row col }
    {
        match self.rows.get(row as usize) {
            Some(row) => row.at(col),
            None => 0,
        }
    }

    fn put(&mut self, row: u16, col: u16, place: u32) -> Result<(), Memory>
        ensures { OnOk result ((r c : ℕ) → in_rows self.new r c ≡ (if r == row
            then (if c == col then place else in_rows self.old r c) else in_rows self.old r c)) }
    {
        let alloc = *self.rows.allocator();
        let number = row as usize;
        for _ in self.rows.len()..number + 1 {
            self.rows.push(RowPlaces::new(alloc))?;
        }
        self.rows[number].put(col, place)
    }
}

/// A number for each cell of one row, found by its column.
#[derive(Drop)]
pub(crate) struct RowPlaces {
    places: Vec<u32>,
}

impl Model for RowPlaces {
    ghost use Rattle.std.specs.Prelude.{List, ℕ};

    ghost Value = { List ℕ };

    ghost view = { λ r. r.places.items };
}

impl RowPlaces {
    fn new(alloc: Global) -> RowPlaces
        ensures { result ≡ [] }
    {
        RowPlaces {
            places: Vec::new(alloc),
        }
    }

    /// The number of the cell in a column.
    pub(crate) fn at(&self, col: u16) -> u32
        ensures { result ≡ get_or self.now col 0 }
    {
        match self.places.get(col as usize) {
            Some(place) => *place,
            None => 0,
        }
    }

    fn put(&mut self, col: u16, place: u32) -> Result<(), Memory>
        ensures { OnOk result ((c : ℕ) → get_or self.new c 0
            ≡ (if c == col then place else get_or self.old c 0)) }
    {
        let number = col as usize;
        for _ in self.places.len()..number + 1 {
            self.places.push(0)?;
        }
        self.places[number] = place;
        Ok(())
    }
}
