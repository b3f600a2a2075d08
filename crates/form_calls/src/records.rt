// The record that VLOOKUP and HLOOKUP find, or the error that is certain.
ghost use Rattle.std.specs.Prelude.{◌≡◌, ◌<◌, ◌++◌, ◌∷◌, IfOk, length};
ghost use Rattle.form_calls.specs.Sources.{cells_picked, columns_of, rows_of, source_of};
ghost use Rattle.form_extraction.specs.Calls.{lookup_by, record_from};
ghost use Rattle.form_extraction.specs.Deciding.{record_by, record_picked};
ghost use Rattle.form_extraction.specs.Parts.{tried_on};
ghost use Rattle.form_table.specs.Lookups.{kinds_in, record_form};
ghost use Rattle.form_table.specs.Wanted.{number_of, value_of};
ghost use Rattle.recalculation.specs.Looks.{then_cells};

use crate::ends::{error_part, refused_part};
use crate::picks::taken_part;
use crate::source::Source;
use cell_refs::{Cell, ErrorKind, Span};
use form_areas::{record_at, record_error};
use form_parts::{FormsOfCells, Part};
use form_values::{Abs, AbsArg};
use memory::Memory;
use std::alloc::Global;

/// A lookup of the value of a key among those of keys, by the values of the further arguments.
pub(crate) fn looked_up<C: FormsOfCells>(
    alloc: Global,
    forms: &C,
    whole: Span,
    args: &[Part],
    looks: Vec<Cell>,
    source: &Source,
    keys: &[Abs],
    key: &AbsArg,
    others: &[AbsArg],
) -> Result<Part, Memory>
    requires { length keys.now ≡ rows_of source.now }
    ensures { IfOk result (λ part. part ≡ record {
      span = whole;
      looks = looks.items ++ then_cells (record_by (columns_of source.now) keys.now
          (key.now ∷ others.now)) (cells_picked source.now);
      outcome = lookup_by whole args.now
          (source_of (C.forms forms.now) source.now) keys.now (key.now ∷ others.now);
      reference = None;
    }) }
{
    let [field, sorted @ ..] = others else {
        return Ok(error_part(whole, looks, ErrorKind::Value));
    };
    found_or_error(
        alloc, forms, whole, args, looks, source, keys, key, field, sorted,
    )
}

// The same by a field and what is said of the keys: an error that is certain comes first.
fn found_or_error<C: FormsOfCells>(
    alloc: Global,
    forms: &C,
    whole: Span,
    args: &[Part],
    looks: Vec<Cell>,
    source: &Source,
    keys: &[Abs],
    key: &AbsArg,
    field: &AbsArg,
    sorted: &[AbsArg],
) -> Result<Part, Memory>
    requires { length keys.now ≡ rows_of source.now }
    ensures { IfOk result (λ part. part ≡ record {
      span = whole;
      looks = looks.items ++ then_cells (record_by (columns_of source.now) keys.now
          (key.now ∷ field.now ∷ sorted.now)) (cells_picked source.now);
      outcome = lookup_by whole args.now (source_of (C.forms forms.now) source.now)
          keys.now (key.now ∷ field.now ∷ sorted.now);
      reference = None;
    }) }
{
    let rows = source.rows();
    prove!(keys.len() == rows as usize);
    let seen = source.read_before();
    if let Some(kind) = record_error(source.cols(), seen, keys, key, field, sorted) {
        return Ok(error_part(whole, looks, kind));
    }
    tried_record(
        alloc, forms, whole, args, looks, source, keys, key, field, sorted,
    )
}

// The same of a field where no error is certain.
fn tried_record<C: FormsOfCells>(
    alloc: Global,
    forms: &C,
    whole: Span,
    args: &[Part],
    looks: Vec<Cell>,
    source: &Source,
    keys: &[Abs],
    key: &AbsArg,
    field: &AbsArg,
    sorted: &[AbsArg],
) -> Result<Part, Memory>
    requires { length keys.now ≡ rows_of source.now }
    ensures { IfOk result (λ part. part ≡ record {
      span = whole;
      looks = looks.items ++ then_cells (record_by (columns_of source.now) keys.now
          (key.now ∷ field.now ∷ sorted.now)) (cells_picked source.now);
      outcome = tried_on whole args.now (record_form (columns_of source.now) keys.now
          (value_of key.now) (number_of field.now) (kinds_in sorted.now))
          (record_from (source_of (C.forms forms.now) source.now));
      reference = None;
    }) }
{
    let rows = source.rows();
    prove!(keys.len() == rows as usize);
    match record_at(alloc, source.cols(), keys, key, field, sorted) {
        Ok(found) => record_part(alloc, forms, whole, looks, source, found),
        Err(refusal) => refused_part(whole, looks, args, refusal),
    }
}

// A call with what is found of a record.
fn record_part<C: FormsOfCells>(
    alloc: Global,
    forms: &C,
    whole: Span,
    looks: Vec<Cell>,
    source: &Source,
    found: Result<(u32, u32), ErrorKind>,
) -> Result<Part, Memory>
    requires { IfOk found (λ place. (place.0 < rows_of source.now)
        × (place.1 < columns_of source.now)) }
    ensures { IfOk result (λ part. part ≡ record {
      span = whole;
      looks = looks.items ++ cells_picked source.now (record_picked found);
      outcome = record_from (source_of (C.forms forms.now) source.now) found;
      reference = None;
    }) }
{
    match found {
        Ok((row, column)) => {
            let place = row as usize * source.cols() as usize + column as usize;
            taken_part(alloc, forms, whole, looks, source, &[place], (1, 1))
        }
        Err(kind) => Ok(error_part(whole, looks, kind)),
    }
}
