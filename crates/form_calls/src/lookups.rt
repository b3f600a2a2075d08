// VLOOKUP and HLOOKUP.
ghost use Rattle.std.specs.Prelude.{◌≡◌, ◌++◌, ◌∷◌, IfOk, length, map};
ghost use Rattle.form_calls.specs.Lookups.{found_cells, found_outcome};
ghost use Rattle.form_calls.specs.Sources.{rows_of, source_of};
ghost use Rattle.form_extraction.specs.Calls.{lookup_outcome};
ghost use Rattle.form_extraction.specs.Deciding.{by_form};
ghost use Rattle.form_extraction.specs.Parts.{argument};
ghost use Rattle.form_extraction.specs.Sources.{exchanged, key_places, of_cells, of_raster};
ghost use Rattle.form_table.specs.Wanted.{grid_of};
ghost use Rattle.recalculation.specs.Looks.{all_looks, exchanged as exchanged_cells, lookup_looks, record_looks};

use crate::ends::{miscounted_part, valueless_part};
use crate::places::{key_places, push_cells_at};
use crate::records::looked_up;
use crate::source::{Source, elements_at};
use cell_grids::Reference;
use cell_refs::{Cell, Span};
use form_areas::transpose_elements;
use form_extraction::Outcome;
use form_parts::{FormsOfCells, Part, Values, push_cells, push_looks, values_of};
use form_values::AbsArg;
use memory::Memory;
use std::alloc::Global;

/// VLOOKUP: of a reference it looks at its other arguments and the keys in the first column, and then at the cell that is found.
pub(crate) fn vlookup_part<C: FormsOfCells>(
    alloc: Global,
    forms: &C,
    whole: Span,
    args: &[Part],
) -> Result<Part, Memory>
    ensures { IfOk result (λ part. part ≡ record {
      span = whole;
      looks = lookup_looks by_form (C.forms forms.now) (λ g. g) (map argument args.now);
      outcome = lookup_outcome (C.forms forms.now) (λ g. g) (λ s. s) whole args.now;
      reference = None;
    }) }
{
    let [key, table, rest @ ..] = args else {
        return miscounted_part(alloc, whole, args);
    };
    down(alloc, forms, whole, args, key, table, rest)
}

// The same of a key, a table and further arguments.
#[tactic(auto, using(crate::proofs::Outcomes::stays))]
fn down<C: FormsOfCells>(
    alloc: Global,
    forms: &C,
    whole: Span,
    args: &[Part],
    key: &Part,
    table: &Part,
    rest: &[Part],
) -> Result<Part, Memory>
    requires { args.now ≡ key.now ∷ table.now ∷ rest.now }
    ensures { IfOk result (λ part. part ≡ record {
      span = whole;
      looks = lookup_looks by_form (C.forms forms.now)
          (λ g. g) (argument key.now ∷ argument table.now ∷ map argument rest.now);
      outcome = lookup_outcome (C.forms forms.now) (λ g. g)
          (λ s. s) whole (key.now ∷ table.now ∷ rest.now);
      reference = None;
    }) }
{
    if let Some(grid) = table.reference() {
        return among_cells(alloc, forms, whole, args, grid, key, rest);
    }
    let looks = looks_in_turn(alloc, table, key, rest)?;
    if key.value().is_none() {
        return valueless_part(alloc, whole, looks, key);
    }
    let Some(value) = table.value() else {
        return valueless_part(alloc, whole, looks, table);
    };
    among_values(alloc, forms, whole, args, looks, value, key, rest)
}

/// HLOOKUP: the same with rows and columns exchanged.
pub(crate) fn hlookup_part<C: FormsOfCells>(
    alloc: Global,
    forms: &C,
    whole: Span,
    args: &[Part],
) -> Result<Part, Memory>
    ensures { IfOk result (λ part. part ≡ record {
      span = whole;
      looks = lookup_looks by_form (C.forms forms.now) exchanged_cells (map argument args.now);
      outcome = lookup_outcome (C.forms forms.now) exchanged_cells exchanged whole args.now;
      reference = None;
    }) }
{
    let [key, table, rest @ ..] = args else {
        return miscounted_part(alloc, whole, args);
    };
    across(alloc, forms, whole, args, key, table, rest)
}

// The same of a key, a table and further arguments.
#[tactic(auto, using(crate::proofs::Outcomes::stays))]
fn across<C: FormsOfCells>(
    alloc: Global,
    forms: &C,
    whole: Span,
    args: &[Part],
    key: &Part,
    table: &Part,
    rest: &[Part],
) -> Result<Part, Memory>
    requires { args.now ≡ key.now ∷ table.now ∷ rest.now }
    ensures { IfOk result (λ part. part ≡ record {
      span = whole;
      looks = lookup_looks by_form (C.forms forms.now) exchanged_cells
          (argument key.now ∷ argument table.now ∷ map argument rest.now);
      outcome = lookup_outcome (C.forms forms.now) exchanged_cells exchanged whole
          (key.now ∷ table.now ∷ rest.now);
      reference = None;
    }) }
{
    if let Some(grid) = table.reference() {
        let turned = grid.transpose(alloc)?;
        return among_cells(alloc, forms, whole, args, &turned, key, rest);
    }
    let looks = looks_in_turn(alloc, table, key, rest)?;
    if key.value().is_none() {
        return valueless_part(alloc, whole, looks, key);
    }
    let Some(value) = table.value() else {
        return valueless_part(alloc, whole, looks, table);
    };
    let turned = transpose_elements(alloc, value)?;
    among_values(alloc, forms, whole, args, looks, &turned, key, rest)
}

// All that a table, a key and further arguments look at, in this order.
fn looks_in_turn(
    alloc: Global,
    table: &Part,
    key: &Part,
    rest: &[Part],
) -> Result<Vec<Cell>, Memory>
    ensures { IfOk result (λ looks. looks.items
        ≡ all_looks (argument table.now ∷ argument key.now ∷ map argument rest.now)) }
{
    let mut looks = Vec::from_slice(alloc, table.looks())?;
    push_cells(key.looks(), &mut looks)?;
    push_looks(rest, &mut looks)?;
    Ok(looks)
}

// A lookup in the rows of a reference.
fn among_cells<C: FormsOfCells>(
    alloc: Global,
    forms: &C,
    whole: Span,
    args: &[Part],
    grid: &Reference,
    key: &Part,
    rest: &[Part],
) -> Result<Part, Memory>
    ensures { IfOk result (λ part. part ≡ record {
      span = whole;
      looks = record_looks by_form (C.forms forms.now) grid.now
          (argument key.now ∷ map argument rest.now);
      outcome = found_outcome whole args.now
          (of_cells (C.forms forms.now) grid.now) key.now rest.now;
      reference = None;
    }) }
{
    let mut looks = Vec::from_slice(alloc, key.looks())?;
    push_looks(rest, &mut looks)?;
    let places = key_places(alloc, grid.rows(), grid.cols())?;
    push_cells_at(grid.cells(), &places, &mut looks)?;
    let source = Source::Cells(grid);
    found_part(
        alloc, forms, whole, args, looks, &source, &places, key, rest,
    )
}

// A lookup in the rows of another argument.
fn among_values<C: FormsOfCells>(
    alloc: Global,
    forms: &C,
    whole: Span,
    args: &[Part],
    looks: Vec<Cell>,
    table: &AbsArg,
    key: &Part,
    rest: &[Part],
) -> Result<Part, Memory>
    ensures { IfOk result (λ part. part ≡ record {
      span = whole;
      looks = looks.items;
      outcome = found_outcome whole args.now (of_raster (grid_of table.now)) key.now rest.now;
      reference = None;
    }) }
{
    let source = Source::Values(table);
    let places = key_places(alloc, source.rows(), source.cols())?;
    found_part(
        alloc, forms, whole, args, looks, &source, &places, key, rest,
    )
}

// A lookup of a key among those in some places.
#[tactic(auto, using(crate::proofs::Outcomes::stays))]
fn found_part<C: FormsOfCells>(
    alloc: Global,
    forms: &C,
    whole: Span,
    args: &[Part],
    looks: Vec<Cell>,
    source: &Source,
    places: &[usize],
    key: &Part,
    rest: &[Part],
) -> Result<Part, Memory>
    requires count { length places.now ≡ rows_of source.now }
    requires keys { places.now ≡ key_places (source_of (C.forms forms.now) source.now) }
    ensures { IfOk result (λ part. part ≡ record {
      span = whole;
      looks = looks.items ++ found_cells (C.forms forms.now) source.now places.now key.now rest.now;
      outcome = found_outcome whole args.now
          (source_of (C.forms forms.now) source.now) key.now rest.now;
      reference = None;
    }) }
{
    let Some(key_value) = key.value() else {
        return valueless_part(alloc, whole, looks, key);
    };
    let Some(keys) = elements_at(alloc, forms, source, places)? else {
        return Ok(Part::new(whole, looks, Outcome::Without, None));
    };
    let others = match values_of(alloc, rest)? {
        Values::All(others) => others,
        Values::Stop(outcome) => return Ok(Part::new(whole, looks, outcome, None)),
    };
    looked_up(
        alloc, forms, whole, args, looks, source, &keys, key_value, &others,
    )
}
