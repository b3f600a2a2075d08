// The grids from which functions pick.
ghost use Rattle.std.specs.Prelude.{◌≡◌, ◌<◌, ◌++◌, IfOk, IfSome, OnOk, length, map, option_map, slice_get};
ghost use Rattle.form_calls.specs.Sources.{cells_in, columns_of, items_of, rows_of, source_of};
ghost use Rattle.form_extraction.specs.Sources.{element, elements_at};
ghost use Rattle.form_values.specs.declared.abs.Abs.{Abs};

use crate::places::push_cells_at;
use cell_grids::Reference;
use cell_refs::Cell;
use form_areas::size_of;
use form_parts::FormsOfCells;
use form_values::{Abs, AbsArg};
use memory::Memory;
use sheet_model::Value;
use std::alloc::Global;

/// A grid from which a function picks: the cells of a reference, or the elements of another argument.
#[derive(Drop)]
pub(crate) enum Source<'a> {
    Cells(&'a Reference),
    Values(&'a AbsArg),
}

impl Source<'_> {
    ghost use Rattle.std.specs.Prelude.{◌≡◌, ◌<◌, ◌++◌, OnOk};
    ghost use Rattle.form_calls.specs.Sources.{cells_in, columns_of, rows_of, read_before};

    /// How many rows it has.
    pub(crate) fn rows(&self) -> u32
        ensures count { result ≡ rows_of self.now }
        ensures some { 0 < result }
    {
        match self {
            Source::Cells(grid) => grid.rows(),
            Source::Values(arg) => size_of(arg).0,
        }
    }

    /// How many columns it has.
    pub(crate) fn cols(&self) -> u32
        ensures count { result ≡ columns_of self.now }
        ensures some { 0 < result }
    {
        match self {
            Source::Cells(grid) => grid.cols(),
            Source::Values(arg) => size_of(arg).1,
        }
    }

    /// Its elements that are looked at before it is known which are picked: of a reference none are.
    pub(crate) fn read_before(&self) -> &[Abs]
        ensures { result.now ≡ read_before self.now }
    {
        match self {
            Source::Cells(_) => &[],
            Source::Values(arg) => arg.elements(),
        }
    }

    /// Puts behind other cells those in some places, of a reference.
    pub(crate) fn push_cells(&self, places: &[usize], to: &mut Vec<Cell>) -> Result<(), Memory>
        ensures { OnOk result (to.new.items ≡ to.old.items ++ cells_in self.now places.now) }
    {
        match self {
            Source::Cells(grid) => push_cells_at(grid.cells(), places, to),
            Source::Values(_) => Ok(()),
        }
    }
}

/// The elements in some places, where all have forms.
pub(crate) fn elements_at<C: FormsOfCells>(
    alloc: Global,
    forms: &C,
    source: &Source,
    places: &[usize],
) -> Result<Option<Vec<Abs>>, Memory>
    ensures elements { IfOk result (λ found. option_map (λ items. items.items) found
        ≡ elements_at (source_of (C.forms forms.now) source.now) places.now) }
    ensures count { IfOk result (λ found.
        IfSome found (λ items. length items.items ≡ length places.now)) }
{
    let mut items = Vec::new(alloc);
    for place in places {
        let Some(item) = element(alloc, forms, source, *place)? else {
            return Ok(None);
        };
        items.push(item)?;
    }
    Ok(Some(items))
}

// The element in a place, if it has a form; outside of the grid there is what is empty.
fn element<C: FormsOfCells>(
    alloc: Global,
    forms: &C,
    source: &Source,
    place: usize,
) -> Result<Option<Abs>, Memory>
    ensures { IfOk result (λ found. found
        ≡ element (slice_get (items_of (C.forms forms.now) source.now) place)) }
{
    match source {
        Source::Cells(grid) => form_at(alloc, forms, grid.cells(), place),
        Source::Values(arg) => value_at(alloc, arg.elements(), place),
    }
}

// The form of the cell in a place.
#[tactic(auto, using(crate::proofs::Sourced::item_there, crate::proofs::Sourced::nothing_there))]
fn form_at<C: FormsOfCells>(
    alloc: Global,
    forms: &C,
    cells: &[Cell],
    place: usize,
) -> Result<Option<Abs>, Memory>
    ensures { IfOk result (λ found. found
        ≡ element (slice_get (map (C.forms forms.now) cells.now) place)) }
{
    match cells.get(place) {
        Some(cell) => forms.form(alloc, *cell),
        None => Ok(Some(Abs::Known(Value::Empty))),
    }
}

// The value in a place.
#[tactic(auto, using(crate::proofs::Sourced::item_there, crate::proofs::Sourced::nothing_there))]
fn value_at(alloc: Global, items: &[Abs], place: usize) -> Result<Option<Abs>, Memory>
    ensures { IfOk result (λ found. found ≡ element (slice_get (map Some items.now) place)) }
{
    match items.get(place) {
        Some(item) => Ok(Some(item.copy(alloc)?)),
        None => Ok(Some(Abs::Known(Value::Empty))),
    }
}
