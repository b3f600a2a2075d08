// SUMIF.
ghost use Rattle.std.specs.Prelude.{◌≡◌, ◌++◌, [], ◌∷◌, IfOk, None, OnOk, if◌then◌else◌, is_some, map};
ghost use Rattle.form_calls.specs.Criteria.{cells_seen, met_unless, sum_cells};
ghost use Rattle.form_calls.specs.Sources.{columns_of, rows_of, read_before, source_of};
ghost use Rattle.form_extraction.specs.Calls.{sum_at, sum_over, sumif_outcome, unless_error};
ghost use Rattle.form_extraction.specs.Deciding.{by_form};
ghost use Rattle.form_extraction.specs.Parts.{argument, outcome_by};
ghost use Rattle.form_extraction.specs.Sources.{taken};
ghost use Rattle.form_table.specs.Criteria.{sum_of_elements};
ghost use Rattle.form_table.specs.Lookups.{error_of};
ghost use Rattle.form_table.specs.Wanted.{value_of};
ghost use Rattle.recalculation.specs.Looks.{all_looks, sum_looks, sumif_looks, then_cells};

use crate::ends::{error_part, miscounted_part, refused_part, valueless_part};
use crate::source::{Source, elements_at};
use cell_refs::{Cell, ErrorKind, Span};
use form_areas::{places_met, size_of, sum_elements, summed_error, value_or_error};
use form_extraction::Outcome;
use form_parts::{FormsOfCells, Part, all_looks, outcome_by, push_cells};
use form_values::{Abs, AbsArg};
use memory::Memory;
use std::alloc::Global;

/// SUMIF: it looks at the tested grid and the criterion, and then of a reference at the cells that are summed.
pub(crate) fn sumif_part<C: FormsOfCells>(
    alloc: Global,
    forms: &C,
    whole: Span,
    args: &[Part],
) -> Result<Part, Memory>
    ensures { IfOk result (λ part. part ≡ record {
      span = whole;
      looks = sumif_looks by_form (map argument args.now);
      outcome = sumif_outcome (C.forms forms.now) whole args.now;
      reference = None;
    }) }
{
    match args {
        [tested, criterion] => {
            let looks = all_looks(alloc, args)?;
            sum_part(
                alloc, forms, whole, args, looks, false, tested, criterion, tested,
            )
        }
        [tested, criterion, summed] => {
            elsewhere(alloc, forms, whole, args, tested, criterion, summed)
        }
        _ => miscounted_part(alloc, whole, args),
    }
}

// The same of a grid that isn't the tested one.
fn elsewhere<C: FormsOfCells>(
    alloc: Global,
    forms: &C,
    whole: Span,
    args: &[Part],
    tested: &Part,
    criterion: &Part,
    summed: &Part,
) -> Result<Part, Memory>
    ensures { IfOk result (λ part. part ≡ record {
      span = whole;
      looks = sum_looks by_form (argument tested.now ∷ argument criterion.now ∷ [])
          (argument summed.now) summed.now.reference;
      outcome = sum_over (C.forms forms.now) whole args.now tested.now criterion.now summed.now;
      reference = None;
    }) }
{
    let looks = looks_before(alloc, tested, criterion, summed)?;
    sum_part(
        alloc, forms, whole, args, looks, true, tested, criterion, summed,
    )
}

// All that a tested grid and a criterion look at, and then the summed one, where it is no reference.
fn looks_before(
    alloc: Global,
    tested: &Part,
    criterion: &Part,
    summed: &Part,
) -> Result<Vec<Cell>, Memory>
    ensures { IfOk result (λ looks. looks.items
        ≡ all_looks (argument tested.now ∷ argument criterion.now ∷ [])
        ++ (if is_some summed.now.reference then [] else summed.now.looks)) }
{
    let mut looks = Vec::from_slice(alloc, tested.looks())?;
    push_cells(criterion.looks(), &mut looks)?;
    if summed.reference().is_some() {
        return Ok(looks);
    }
    push_cells(summed.looks(), &mut looks)?;
    Ok(looks)
}

// The sum over a tested grid, a criterion and a summed grid, of which the summed cells may be looked at.
#[tactic(auto, using(crate::proofs::Outcomes::stays))]
fn sum_part<C: FormsOfCells>(
    alloc: Global,
    forms: &C,
    whole: Span,
    args: &[Part],
    looks: Vec<Cell>,
    seen: bool,
    tested: &Part,
    criterion: &Part,
    summed: &Part,
) -> Result<Part, Memory>
    ensures { IfOk result (λ part. part ≡ record {
      span = whole;
      looks = looks.items ++ sum_cells seen summed.now.reference tested.now criterion.now;
      outcome = sum_over (C.forms forms.now) whole args.now tested.now criterion.now summed.now;
      reference = None;
    }) }
{
    let Some(elements) = tested.value() else {
        return valueless_part(alloc, whole, looks, tested);
    };
    let Some(asked) = criterion.value() else {
        return valueless_part(alloc, whole, looks, criterion);
    };
    if let Some(grid) = summed.reference() {
        let source = Source::Cells(grid);
        return sum_in(
            alloc, forms, whole, args, looks, seen, &source, elements, asked,
        );
    }
    let Some(value) = summed.value() else {
        return valueless_part(alloc, whole, looks, summed);
    };
    let source = Source::Values(value);
    sum_in(
        alloc, forms, whole, args, looks, seen, &source, elements, asked,
    )
}

// The sum over a grid by the values of the tested grid and of the criterion, or the error that is certainly the first of what is summed.
fn sum_in<C: FormsOfCells>(
    alloc: Global,
    forms: &C,
    whole: Span,
    args: &[Part],
    looks: Vec<Cell>,
    seen: bool,
    source: &Source,
    tested: &AbsArg,
    criterion: &AbsArg,
) -> Result<Part, Memory>
    ensures { IfOk result (λ part. part ≡ record {
      span = whole;
      looks = looks.items
          ++ then_cells (met_unless (error_of (value_of criterion.now)) (rows_of source.now)
          (columns_of source.now) tested.now (value_of criterion.now)) (cells_seen seen source.now);
      outcome = unless_error (error_of (value_of criterion.now)) (sum_at whole args.now
          (source_of (C.forms forms.now) source.now) (read_before source.now) tested.now criterion.now);
      reference = None;
    }) }
{
    let criterion = match value_or_error(criterion) {
        Ok(criterion) => criterion,
        Err(kind) => return Ok(error_part(whole, looks, kind)),
    };
    let (rows, cols) = size_of(tested);
    if rows != source.rows() || cols != source.cols() {
        return Ok(error_part(whole, looks, ErrorKind::Value));
    }
    if let Some(kind) = summed_error(criterion, source.read_before(), tested.elements()) {
        return Ok(error_part(whole, looks, kind));
    }
    match places_met(alloc, tested.elements(), criterion) {
        Ok(places) => sum_at(alloc, forms, whole, args, looks, seen, source, &places),
        Err(refusal) => refused_part(whole, looks, args, refusal),
    }
}

// The sum of the elements in some places.
fn sum_at<C: FormsOfCells>(
    alloc: Global,
    forms: &C,
    whole: Span,
    args: &[Part],
    mut looks: Vec<Cell>,
    seen: bool,
    source: &Source,
    places: &[usize],
) -> Result<Part, Memory>
    ensures { IfOk result (λ part. part ≡ record {
      span = whole;
      looks = looks.items ++ cells_seen seen source.now places.now;
      outcome = taken (source_of (C.forms forms.now) source.now) places.now
          (λ items. outcome_by whole args.now (sum_of_elements items));
      reference = None;
    }) }
{
    push_seen(seen, source, places, &mut looks)?;
    let Some(items) = elements_at(alloc, forms, source, places)? else {
        return Ok(Part::new(whole, looks, Outcome::Without, None));
    };
    let outcome = outcome_by(whole, args, sum_elements(alloc, &items))?;
    Ok(Part::new(whole, looks, outcome, None))
}

// Puts behind other cells those in some places of a grid, where they are looked at.
fn push_seen(
    seen: bool,
    source: &Source,
    places: &[usize],
    to: &mut Vec<Cell>,
) -> Result<(), Memory>
    ensures { OnOk result (to.new.items ≡ to.old.items ++ cells_seen seen source.now places.now) }
{
    if seen {
        return source.push_cells(places, to);
    }
    Ok(())
}
