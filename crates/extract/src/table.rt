// Tables of forms.
ghost use Rattle.std.specs.Prelude.{◌≡◌, OnErr, OnOk, option_map};
ghost use Rattle.cell_refs.specs.declared.place.Place.TheVariants as place;
ghost use Rattle.extract.specs.Tables.{form_at, form_count, no_forms, with_form, without};

use cell_refs::Cell;
use form_extraction::CellForm;
use indexmap::IndexMap;
use memory::Memory;
use std::alloc::Global;
use std::marker::Model;
use std::mem::drop;
use workbook::Place;

/// The forms of some cells and of some sides.
#[derive(Drop)]
pub struct FormTable {
    cells: IndexMap<Cell, CellForm>,
    sides: IndexMap<u16, CellForm>,
}

impl Model for FormTable {
    ghost use Rattle.std.specs.Prelude.{refl};
    ghost use Rattle.std.specs.FinMap.{FinMap, code, from_entries};
    ghost use Rattle.std.specs.Ordering.{nat_cmp};
    ghost use Rattle.std.specs.Coded.{code_by, codes, coded×, coded_ℕ};
    ghost use Rattle.cell_refs.specs.Cells.{cell_cmp, coded_cell};
    ghost use Rattle.form_extraction.specs.declared.forms.CellForm.{CellForm};
    ghost use Rattle.cell_refs.specs.declared.place.Place.TheVariants as place;
    ghost use Rattle.extract.specs.Tables.{Table};

    ghost Value = { Table };

    ghost coded = { code_by (FinMap cell_cmp CellForm × FinMap nat_cmp CellForm)
        (coded× (code coded_cell (Prim.hlevel codes)) (code coded_ℕ (Prim.hlevel codes)))
        (λ t. (t.cells, t.sides)) (λ p. record { cells = p.0; sides = p.1 }) (λ _. refl) };

    ghost view = { λ t.
        record { cells = from_entries t.cells.entries; sides = from_entries t.sides.entries } };
}

impl FormTable {
    /// A table without forms.
    pub fn new(alloc: Global) -> FormTable
        ensures { result ≡ no_forms }
    {
        FormTable {
            cells: IndexMap::new(alloc),
            sides: IndexMap::new(alloc),
        }
    }

    /// The form of a place, where there is one.
    pub fn get(&self, place: Place) -> Option<&CellForm>
        ensures { option_map (λ form. form.now) result ≡ form_at self.now place }
    {
        match place {
            Place::Cell(cell) => self.cells.get(&cell),
            Place::Side(number) => self.sides.get(&number),
        }
    }

    /// Puts the form of a place, over what there was.
    pub fn put(&mut self, place: Place, form: CellForm) -> Result<(), Memory>
        ensures ok { OnOk result (self.new ≡ with_form self.old place form) }
        ensures err { OnErr result (self.new ≡ self.old) }
    {
        match place {
            Place::Cell(cell) => self.put_cell(cell, form),
            Place::Side(number) => self.put_side(number, form),
        }
    }

    /// Takes away the form of a place, if there is one, for which no memory is wanted.
    pub fn take(&mut self, place: Place)
        ensures { self.new ≡ without self.old place }
    {
        match place {
            Place::Cell(cell) => self.take_cell(cell),
            Place::Side(number) => self.take_side(number),
        }
    }

    // Puts the form of a cell.
    fn put_cell(&mut self, cell: Cell, form: CellForm) -> Result<(), Memory>
        ensures ok { OnOk result (self.new ≡ with_form self.old (place.Cell cell) form) }
        ensures err { OnErr result (self.new ≡ self.old) }
    {
        let Ok(_) = self.cells.insert(cell, form) else {
            return Err(Memory);
        };
        Ok(())
    }

    // Puts the form of a side.
    fn put_side(&mut self, number: u16, form: CellForm) -> Result<(), Memory>
        ensures ok { OnOk result (self.new ≡ with_form self.old (place.Side number) form) }
        ensures err { OnErr result (self.new ≡ self.old) }
    {
        let Ok(_) = self.sides.insert(number, form) else {
            return Err(Memory);
        };
        Ok(())
    }

    // Takes away the form of a cell.
    fn take_cell(&mut self, cell: Cell)
        ensures { self.new ≡ without self.old (place.Cell cell) }
    {
        drop(self.cells.swap_remove(&cell));
    }

    // Takes away the form of a side.
    fn take_side(&mut self, number: u16)
        ensures { self.new ≡ without self.old (place.Side number) }
    {
        drop(self.sides.swap_remove(&number));
    }

    /// How many forms there are.
    pub fn len(&self) -> usize
        ensures { result ≡ form_count self.now }
    {
        self.cells.len() + self.sides.len()
    }
}
