// ROWS and COLUMNS.
ghost use Rattle.std.specs.Prelude.{◌≡◌, IfOk, Option, map, pos};
ghost use Rattle.cell_refs.specs.declared.cell.Cell.{Cell};
ghost use Rattle.form_extraction.specs.Calls.{size_of};
ghost use Rattle.form_extraction.specs.Parts.{argument};
ghost use Rattle.form_values.specs.declared.abs.Abs.{Abs};
ghost use Rattle.form_values.specs.declared.abs.Abs.TheVariants.{Known};
ghost use Rattle.form_values.specs.declared.abs.AbsArg.TheVariants.{One};
ghost use Rattle.fractions.specs.Whole.{whole_ℚ};
ghost use Rattle.recalculation.specs.Looks.{size_looks};
ghost use Rattle.sheet_model.specs.declared.value.Value.TheVariants.{Number};

use crate::ends::{miscounted_part, valueless_part};
use cell_refs::Span;
use form_extraction::Outcome;
use form_parts::{Part, all_looks};
use form_values::{Abs, AbsArg};
use frac128::Frac;
use memory::Memory;
use sheet_model::Value;
use std::alloc::Global;

/// ROWS: of a reference it looks at no cell.
pub(crate) fn rows_part(alloc: Global, whole: Span, args: &[Part]) -> Result<Part, Memory>
    ensures { (forms : Cell → Option Abs) → IfOk result (λ part. part ≡ record {
      span = whole;
      looks = size_looks (map argument args.now);
      outcome = size_of (λ s. s.rows) forms args.now;
      reference = None;
    }) }
{
    let [part] = args else {
        return miscounted_part(alloc, whole, args);
    };
    if let Some(grid) = part.reference() {
        return Ok(Part::plain(alloc, whole, number(grid.rows())));
    }
    let looks = all_looks(alloc, args)?;
    let Some(value) = part.value() else {
        return valueless_part(alloc, whole, looks, part);
    };
    let rows = form_areas::size_of(value).0;
    Ok(Part::new(whole, looks, Outcome::Gives(number(rows)), None))
}

/// COLUMNS: of a reference it looks at no cell.
pub(crate) fn columns_part(alloc: Global, whole: Span, args: &[Part]) -> Result<Part, Memory>
    ensures { (forms : Cell → Option Abs) → IfOk result (λ part. part ≡ record {
      span = whole;
      looks = size_looks (map argument args.now);
      outcome = size_of (λ s. s.columns) forms args.now;
      reference = None;
    }) }
{
    let [part] = args else {
        return miscounted_part(alloc, whole, args);
    };
    if let Some(grid) = part.reference() {
        return Ok(Part::plain(alloc, whole, number(grid.cols())));
    }
    let looks = all_looks(alloc, args)?;
    let Some(value) = part.value() else {
        return valueless_part(alloc, whole, looks, part);
    };
    let columns = form_areas::size_of(value).1;
    Ok(Part::new(whole, looks, Outcome::Gives(number(columns)), None))
}

// A whole number.
fn number(n: u32) -> AbsArg
    ensures { result ≡ One (Known (Number (whole_ℚ (pos n)))) }
{
    AbsArg::One(Abs::Known(Value::Number(Frac::from_whole(n as i64))))
}
