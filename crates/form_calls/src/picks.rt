// INDEX, and what is picked.
ghost use Rattle.std.specs.Prelude.{◌≡◌, ◌<◌, ◌*◌, ◌++◌, ◌∷◌, IfOk, length, map};
ghost use Rattle.form_calls.specs.Sources.{cells_in, cells_picked, columns_of, read_before, rows_of, source_of};
ghost use Rattle.form_extraction.specs.Calls.{index_outcome, picked_at, picked_from, raster};
ghost use Rattle.form_extraction.specs.Deciding.{by_form, given_by};
ghost use Rattle.form_extraction.specs.Parts.{argument, on_parts, tried_on};
ghost use Rattle.form_extraction.specs.Sources.{taken};
ghost use Rattle.form_extraction.specs.declared.forms.Outcome.TheVariants.{Gives};
ghost use Rattle.form_table.specs.Picks.{pick_form};
ghost use Rattle.form_values.specs.Trials.{Answers};
ghost use Rattle.recalculation.specs.Looks.{index_looks, outcomes, then_cells};
ghost use Rattle.sheet_funcs.specs.Within.{IsPartOf, IsWithin};
ghost use Rattle.sheet_funcs.specs.declared.pick.Pick.TheVariants.{Part as Picked};

use crate::ends::{error_part, miscounted_part, refused_part, valueless_part};
use crate::places::part_places;
use crate::source::{Source, elements_at};
use cell_refs::{Cell, ErrorKind, Span};
use form_areas::{index_at, index_error};
use form_extraction::Outcome;
use form_parts::{FormsOfCells, Part, Values, all_looks, values_of};
use form_values::{Abs, AbsArg, AbsGrid, OpRefusal};
use memory::Memory;
use sheet_funcs::Pick;
use std::alloc::Global;

/// INDEX: of a reference it looks at its places, and then at the cells that they pick.
pub(crate) fn index_part<C: FormsOfCells>(
    alloc: Global,
    forms: &C,
    whole: Span,
    args: &[Part],
) -> Result<Part, Memory>
    ensures { IfOk result (λ part. part ≡ record {
      span = whole;
      looks = index_looks by_form (map argument args.now);
      outcome = index_outcome (C.forms forms.now) whole args.now;
      reference = None;
    }) }
{
    let [table, places @ ..] = args else {
        return miscounted_part(alloc, whole, args);
    };
    index_of(alloc, forms, whole, args, table, places)
}

// The same of its table and its places.
#[tactic(auto, using(crate::proofs::Outcomes::stays))]
fn index_of<C: FormsOfCells>(
    alloc: Global,
    forms: &C,
    whole: Span,
    args: &[Part],
    table: &Part,
    places: &[Part],
) -> Result<Part, Memory>
    requires { args.now ≡ table.now ∷ places.now }
    ensures { IfOk result (λ part. part ≡ record {
      span = whole;
      looks = index_looks by_form (argument table.now ∷ map argument places.now);
      outcome = index_outcome (C.forms forms.now) whole (table.now ∷ places.now);
      reference = None;
    }) }
{
    if let Some(grid) = table.reference() {
        let looks = all_looks(alloc, places)?;
        let source = Source::Cells(grid);
        return indexed_part(alloc, forms, whole, args, looks, &source, places);
    }
    let looks = all_looks(alloc, args)?;
    let Some(value) = table.value() else {
        return valueless_part(alloc, whole, looks, table);
    };
    let source = Source::Values(value);
    indexed_part(alloc, forms, whole, args, looks, &source, places)
}

// The same of a grid by some places.
fn indexed_part<C: FormsOfCells>(
    alloc: Global,
    forms: &C,
    whole: Span,
    args: &[Part],
    looks: Vec<Cell>,
    source: &Source,
    places: &[Part],
) -> Result<Part, Memory>
    ensures { IfOk result (λ part. part ≡ record {
      span = whole;
      looks = looks.items ++ then_cells (outcomes (map argument places.now))
          (λ at. then_cells (given_by (pick_form (rows_of source.now) (columns_of source.now) at))
          (cells_picked source.now));
      outcome = on_parts places.now (picked_at whole args.now
          (source_of (C.forms forms.now) source.now) (read_before source.now));
      reference = None;
    }) }
{
    let at = match values_of(alloc, places)? {
        Values::All(at) => at,
        Values::Stop(outcome) => return Ok(Part::new(whole, looks, outcome, None)),
    };
    placed_part(alloc, forms, whole, args, looks, source, &at)
}

// The same by the values of the places.
fn placed_part<C: FormsOfCells>(
    alloc: Global,
    forms: &C,
    whole: Span,
    args: &[Part],
    looks: Vec<Cell>,
    source: &Source,
    at: &[AbsArg],
) -> Result<Part, Memory>
    ensures { IfOk result (λ part. part ≡ record {
      span = whole;
      looks = looks.items ++ then_cells (given_by (pick_form (rows_of source.now)
          (columns_of source.now) at.now)) (cells_picked source.now);
      outcome = picked_at whole args.now (source_of (C.forms forms.now) source.now)
          (read_before source.now) at.now;
      reference = None;
    }) }
{
    if let Some(kind) = index_error(source.rows(), source.cols(), source.read_before(), at) {
        return Ok(error_part(whole, looks, kind));
    }
    tried_part(alloc, forms, whole, args, looks, source, at)
}

// The same where no error is certain.
fn tried_part<C: FormsOfCells>(
    alloc: Global,
    forms: &C,
    whole: Span,
    args: &[Part],
    looks: Vec<Cell>,
    source: &Source,
    at: &[AbsArg],
) -> Result<Part, Memory>
    ensures { IfOk result (λ part. part ≡ record {
      span = whole;
      looks = looks.items ++ then_cells (given_by (pick_form (rows_of source.now)
          (columns_of source.now) at.now)) (cells_picked source.now);
      outcome = tried_on whole args.now (pick_form (rows_of source.now) (columns_of source.now)
          at.now) (picked_from (source_of (C.forms forms.now) source.now));
      reference = None;
    }) }
{
    match pick_at(source.rows(), source.cols(), at) {
        Ok(pick) => picked_part(alloc, forms, whole, looks, source, pick),
        Err(refusal) => refused_part(whole, looks, args, refusal),
    }
}

// What these places pick; other than one or two pick nothing.
fn pick_at(rows: u32, cols: u32, at: &[AbsArg]) -> Result<Pick, OpRefusal>
    requires rows { 0 < rows }
    requires columns { 0 < cols }
    ensures answer { Answers (pick_form rows cols at.now) result }
    ensures within { IfOk result (IsWithin rows cols) }
{
    if at.len() != 1 && at.len() != 2 {
        return Ok(Pick::Fault(ErrorKind::Value));
    }
    index_at(rows, cols, at)
}

// A call that looks at some cells and then at what it picks.
fn picked_part<C: FormsOfCells>(
    alloc: Global,
    forms: &C,
    whole: Span,
    looks: Vec<Cell>,
    source: &Source,
    pick: Pick,
) -> Result<Part, Memory>
    requires { IsWithin (rows_of source.now) (columns_of source.now) pick }
    ensures { IfOk result (λ part. part ≡ record {
      span = whole;
      looks = looks.items ++ cells_picked source.now pick;
      outcome = picked_from (source_of (C.forms forms.now) source.now) pick;
      reference = None;
    }) }
{
    match pick {
        Pick::Part(top, left, bottom, right) => {
            part_of(alloc, forms, whole, looks, source, top, left, bottom, right)
        }
        Pick::Fault(kind) => Ok(error_part(whole, looks, kind)),
    }
}

// The same of a part of the grid.
fn part_of<C: FormsOfCells>(
    alloc: Global,
    forms: &C,
    whole: Span,
    looks: Vec<Cell>,
    source: &Source,
    top: u32,
    left: u32,
    bottom: u32,
    right: u32,
) -> Result<Part, Memory>
    requires { IsPartOf (rows_of source.now) (columns_of source.now) top left bottom right }
    ensures { IfOk result (λ part. part ≡ record {
      span = whole;
      looks = looks.items ++ cells_picked source.now (Picked top left bottom right);
      outcome = picked_from (source_of (C.forms forms.now) source.now)
          (Picked top left bottom right);
      reference = None;
    }) }
{
    let rows = source.rows();
    let cols = source.cols();
    prove!(bottom < rows && right < cols);
    let places = part_places(alloc, rows, cols, top, left, bottom, right)?;
    taken_part(
        alloc,
        forms,
        whole,
        looks,
        source,
        &places,
        (bottom + 1 - top, right + 1 - left),
    )
}

/// A call that looks at some cells and then at those in some places, and comes to the elements there in so many rows and columns.
pub(crate) fn taken_part<C: FormsOfCells>(
    alloc: Global,
    forms: &C,
    whole: Span,
    mut looks: Vec<Cell>,
    source: &Source,
    places: &[usize],
    size: (u32, u32),
) -> Result<Part, Memory>
    requires rows { 0 < size.0 }
    requires columns { 0 < size.1 }
    requires count { length places.now ≡ size.0 * size.1 }
    ensures { IfOk result (λ part. part ≡ record {
      span = whole;
      looks = looks.items ++ cells_in source.now places.now;
      outcome = taken (source_of (C.forms forms.now) source.now) places.now
          (λ items. Gives (raster size.0 size.1 items));
      reference = None;
    }) }
{
    source.push_cells(places, &mut looks)?;
    let Some(items) = elements_at(alloc, forms, source, places)? else {
        return Ok(Part::new(whole, looks, Outcome::Without, None));
    };
    let value = raster(size.0, size.1, items);
    Ok(Part::new(whole, looks, Outcome::Gives(value), None))
}

// Elements in rows and columns, and a single one as a single value.
fn raster(rows: u32, cols: u32, items: Vec<Abs>) -> AbsArg
    requires rows { 0 < rows }
    requires columns { 0 < cols }
    requires count { length items.items ≡ rows * cols }
    ensures { result ≡ raster rows cols items.items }
{
    let mut items = items;
    if items.len() == 1 {
        if let Some(item) = items.pop() {
            return AbsArg::One(item);
        }
    }
    match AbsGrid::new(rows, cols, items) {
        Some(grid) => AbsArg::Area(grid),
        None => unreachable!(),
    }
}
