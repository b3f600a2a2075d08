// The values of cells, each found at once.
ghost use Rattle.std.specs.Prelude.{◌≡◌, ◌++◌, ◌∷◌, [], IfOk, IfSome, OnOk, Some, get_or, if◌then◌else◌, is_some, length, map, option_map, true, unwrap_or};
ghost use Rattle.std.specs.BTreeMap.{is_at};
ghost use Rattle.cell_refs.specs.declared.cell.Cell.{Cell};
ghost use Rattle.cell_refs.specs.Cells.{cell_cmp};
ghost use Rattle.cell_refs.specs.Areas.{cells_of};
ghost use Rattle.cell_grids.specs.AreaRows.{row_cells};
ghost use Rattle.recalculation.specs.Looking.{are_known, known_or_empty, or_empty};
ghost use Rattle.recalculation.specs.Looks.{elements};
ghost use Rattle.sheet_model.specs.declared.value.Value.TheVariants.{Empty};
ghost use Rattle.recalc.specs.Values.{IsTable, known_value, value_at, value_in_list};

use crate::places::{Places, RowPlaces};
use cell_refs::{Area, Cell};
use evaluation::Cells;
use sheet_model::{Memory, Text, Value};
use std::alloc::Global;

/// What is known of a cell: nothing, its value, or that it is a text of the workbook.
#[derive(Drop)]
pub(crate) enum Known<'a> {
    Nothing,
    Value(Value),
    Text(&'a str),
}

impl Known<'_> {
    /// The value, if one is known.
    pub(crate) fn into_value(self, alloc: Global) -> Result<Option<Value>, Memory>
        ensures { IfOk result (λ value. value ≡ known_value self.entry) }
    {
        match self {
            Known::Nothing => Ok(None),
            Known::Value(value) => Ok(Some(value)),
            Known::Text(text) => {
                let text = String::from_str(alloc, text)?;
                Ok(Some(Value::Text(Text::new(text))))
            }
        }
    }
}

/// What is known of cells; a cell for which nothing was put in is empty.
#[derive(Drop)]
pub(crate) struct Values<'a> {
    places: Places,
    known: Vec<Known<'a>>,
}

impl<'a> Values<'a> {
    /// All cells are empty; there is room for what is known of so many.
    pub(crate) fn new(alloc: Global, count: usize) -> Result<Values<'a>, Memory>
        ensures table { IfOk result IsTable }
        ensures empty { IfOk result (λ values. (q : Cell) → value_at values q ≡ Some Empty) }
    {
        let mut known = Vec::new(alloc);
        known.push(Known::Value(Value::Empty))?;
        known.reserve(count)?;
        Ok(Values {
            places: Places::new(alloc),
            known,
        })
    }

    /// Puts in what is known of a cell.
    pub(crate) fn put(&mut self, cell: Cell, known: Known<'a>) -> Result<(), Memory>
        requires { IsTable self.old }
        ensures table { OnOk result (IsTable self.new) }
        ensures put { OnOk result ((q : Cell) → value_at self.new q
            ≡ (if is_at (cell_cmp cell) q then known_value known.entry else value_at self.old q)) }
    {
        let Ok(place) = u32::try_from(self.known.len()) else {
            return Err(Memory);
        };
        self.known.push(known)?;
        self.places.put(cell, place)
    }

    /// Whether all of these cells have a value.
    pub(crate) fn all_known(&self, cells: &[Cell]) -> bool
        ensures { result ≡ are_known (value_at self.now) cells.now }
    {
        cells.iter().all(|cell| self.is_known(*cell))
    }

    // Puts the values of a row of an area behind others, if all are known.
    fn push_row(
        &self,
        alloc: Global,
        area: &Area,
        row: u16,
        to: &mut Vec<Value>,
    ) -> Result<bool, Memory>
        ensures known { IfOk result
            (λ known. known ≡ are_known (value_at self.now) (row_cells area.now row)) }
        ensures values { IfOk result (λ known. known ≡ true → to.new.items
            ≡ to.old.items ++ map (known_or_empty (value_at self.now)) (row_cells area.now row)) }
    {
        let rows = self.places.rows(area.sheet());
        let places = row_at(rows, row);
        for col in area.left()..area.right() + 1 {
            if !self.push_known(alloc, place_in_row(places, col), to)? {
                return Ok(false);
            }
        }
        Ok(true)
    }

    // The values of the cells of an area of one column, if all are known. It has a loop of its own for speed: sums are mostly of columns.
    fn column(&self, alloc: Global, area: &Area) -> Result<Option<Vec<Value>>, Memory>
        requires { area.now.further_columns ≡ 0 }
        ensures values { IfOk result (λ found. option_map (λ values. values.items) found
            ≡ elements (value_at self.now) (cells_of area.now)) }
        ensures count { IfOk result (λ found.
            IfSome found (λ values. length values.items ≡ length (cells_of area.now))) }
    {
        let rows = self.places.rows(area.sheet());
        let col = area.left();
        let mut values = Vec::new(alloc);
        values.reserve(area.len() as usize)?;
        for row in area.top()..area.bottom() + 1 {
            if !self.push_known(alloc, place_in_row(row_at(rows, row), col), &mut values)? {
                return Ok(None);
            }
        }
        Ok(Some(values))
    }

    // Puts the value at a place of the list behind others, if there is one. A number is the most frequent: it is copied in the loop.
    #[inline(always)]
    fn push_known(&self, alloc: Global, place: u32, to: &mut Vec<Value>) -> Result<bool, Memory>
        ensures known { IfOk result (λ known. known ≡ is_some (value_in_list self.now place)) }
        ensures value { IfOk result (λ known. known ≡ true
            → to.new.items ≡ to.old.items ++ or_empty (value_in_list self.now place) ∷ []) }
    {
        match self.known.get(place as usize) {
            Some(Known::Value(Value::Number(number))) => {
                to.push(Value::Number(*number))?;
                Ok(true)
            }
            Some(known) => push_value(alloc, known, to),
            None => Ok(false),
        }
    }

    // Whether a cell has a value.
    fn is_known(&self, cell: Cell) -> bool
        ensures { result ≡ is_some (value_at self.now cell) }
    {
        match self.known.get(self.places.at(cell) as usize) {
            Some(Known::Nothing) | None => false,
            Some(Known::Value(_)) | Some(Known::Text(_)) => true,
        }
    }
}

// Puts what is known of a cell behind other values, if that is a value.
#[inline(never)]
fn push_value(alloc: Global, known: &Known, to: &mut Vec<Value>) -> Result<bool, Memory>
    ensures known { IfOk result (λ is_known. is_known ≡ is_some (known_value known.now)) }
    ensures value { IfOk result (λ is_known. is_known ≡ true
        → to.new.items ≡ to.old.items ++ or_empty (known_value known.now) ∷ []) }
{
    match known {
        Known::Value(value) => to.push(value.copy(alloc)?)?,
        Known::Text(text) => {
            to.push(Value::Text(Text::new(String::from_str(alloc, text)?)))?;
        }
        Known::Nothing => return Ok(false),
    }
    Ok(true)
}

// The numbers of a row, where it has some.
fn row_at(rows: &[RowPlaces], row: u16) -> Option<&RowPlaces>
    ensures { unwrap_or (option_map (λ r. r.now) result) [] ≡ get_or rows.now row [] }
{
    rows.get(row as usize)
}

// The place of the cell in a column, in a row that may have none.
fn place_in_row(row: Option<&RowPlaces>, col: u16) -> u32
    ensures { result ≡ get_or (unwrap_or (option_map (λ r. r.now) row.entry) []) col 0 }
{
    match row {
        Some(row) => row.at(col),
        None => 0,
    }
}

impl Cells for Values<'_> {
    ghost known = { value_at };

    fn value(&self, alloc: Global, cell: Cell) -> Result<Option<Value>, Memory>
        ensures { IfOk result (λ value. value ≡ value_at self.now cell) }
    {
        match self.known.get(self.places.at(cell) as usize) {
            Some(Known::Value(value)) => Ok(Some(value.copy(alloc)?)),
            Some(Known::Text(text)) => {
                let text = String::from_str(alloc, text)?;
                Ok(Some(Value::Text(Text::new(text))))
            }
            Some(Known::Nothing) | None => Ok(None),
        }
    }

    fn values(&self, alloc: Global, area: &Area) -> Result<Option<Vec<Value>>, Memory>
        ensures values { IfOk result (λ found. option_map (λ values. values.items) found
            ≡ elements (value_at self.now) (cells_of area.now)) }
        ensures count { IfOk result (λ found.
            IfSome found (λ values. length values.items ≡ length (cells_of area.now))) }
    {
        if area.left() == area.right() {
            return self.column(alloc, area);
        }
        let mut values = Vec::new(alloc);
        values.reserve(area.len() as usize)?;
        for row in area.top()..area.bottom() + 1 {
            if !self.push_row(alloc, area, row, &mut values)? {
                return Ok(None);
            }
        }
        Ok(Some(values))
    }
}
