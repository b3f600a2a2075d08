// References.
ghost use Rattle.std.specs.Prelude.{◌≡◌, ◌<◌, IfOk, Some, length};
ghost use Rattle.form_extraction.specs.Formulas.{of_forms, referred};
ghost use Rattle.form_extraction.specs.declared.forms.Outcome.TheVariants.{Without};
ghost use Rattle.form_parts.specs.Steps.{unread};
ghost use Rattle.recalculation.specs.Evaluation.{grid_of_areas};
ghost use Rattle.recalculation.specs.Looks.{elements};

use crate::cells::{FormsOfCells, forms_of};
use crate::part::Part;
use cell_grids::Reference;
use cell_refs::{Area, Span};
use form_extraction::Outcome;
use form_values::{AbsArg, AbsGrid};
use memory::Memory;
use std::alloc::Global;

/// A reference to some areas.
pub fn reference_part<C: FormsOfCells>(
    alloc: Global,
    forms: &C,
    span: Span,
    areas: &[Area],
) -> Result<Part, Memory>
    requires { 0 < length areas.now }
    ensures { IfOk result (λ part. part
        ≡ referred (C.forms forms.now) span (grid_of_areas areas.now)) }
{
    let reference = Reference::of_areas(alloc, areas)?;
    let outcome = outcome_of(alloc, forms, &reference)?;
    let looks = Vec::from_slice(alloc, reference.cells())?;
    Ok(Part::new(span, looks, outcome, Some(reference)))
}

// The forms of a reference, where all are known.
fn outcome_of<C: FormsOfCells>(
    alloc: Global,
    forms: &C,
    reference: &Reference,
) -> Result<Outcome, Memory>
    ensures { IfOk result (λ outcome. outcome
        ≡ of_forms reference.now (elements (C.forms forms.now) reference.now.cells)) }
{
    let Some(items) = forms_of(alloc, forms, reference.cells())? else {
        return Ok(Outcome::Without);
    };
    match AbsGrid::new(reference.rows(), reference.cols(), items) {
        Some(grid) => Ok(Outcome::Gives(AbsArg::Area(grid))),
        None => unreachable!(),
    }
}

/// A reference to some areas whose forms are left unread.
pub fn table_part(alloc: Global, span: Span, areas: &[Area]) -> Result<Part, Memory>
    requires { 0 < length areas.now }
    ensures { IfOk result (λ part. part ≡ record {
      span = span;
      looks = (grid_of_areas areas.now).cells;
      outcome = Without;
      reference = Some (grid_of_areas areas.now);
    }) }
{
    let reference = Reference::of_areas(alloc, areas)?;
    let looks = Vec::from_slice(alloc, reference.cells())?;
    Ok(Part::new(span, looks, Outcome::Without, Some(reference)))
}

/// A part without its value, where it is a reference.
pub fn unread(part: Part) -> Part
    ensures { result ≡ unread part }
{
    let Part {
        span,
        looks,
        outcome,
        reference,
    } = part;
    if reference.is_some() {
        return Part::new(span, looks, Outcome::Without, reference);
    }
    Part::new(span, looks, outcome, reference)
}
