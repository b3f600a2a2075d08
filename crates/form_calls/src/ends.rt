// Calls that come to an error, to a refusal, or to what one of their arguments comes to.
ghost use Rattle.std.specs.Prelude.{◌≡◌, IfOk, None, map};
ghost use Rattle.cell_refs.specs.declared.error_kind.ErrorKind.TheVariants as kind;
ghost use Rattle.form_extraction.specs.Calls.{fails};
ghost use Rattle.form_extraction.specs.Parts.{argument, value_in};
ghost use Rattle.form_parts.specs.Steps.{IsRefusedBy};
ghost use Rattle.recalculation.specs.Looks.{all_looks};

use cell_refs::{Cell, ErrorKind, Span};
use form_extraction::Outcome;
use form_parts::{Part, all_looks, copy_outcome, refused_by};
use form_values::{Abs, AbsArg, OpRefusal};
use memory::Memory;
use sheet_model::Value;
use std::alloc::Global;

/// A call that comes to what an argument without a value comes to.
pub(crate) fn valueless_part(
    alloc: Global,
    whole: Span,
    looks: Vec<Cell>,
    argument: &Part,
) -> Result<Part, Memory>
    requires { value_in argument.now.outcome ≡ None }
    ensures { IfOk result (λ part. part ≡ record {
      span = whole;
      looks = looks.items;
      outcome = argument.now.outcome;
      reference = None;
    }) }
{
    let outcome = copy_outcome(alloc, argument.outcome())?;
    Ok(Part::new(whole, looks, outcome, None))
}

/// A call that is refused.
pub(crate) fn refused_part(
    whole: Span,
    looks: Vec<Cell>,
    args: &[Part],
    refusal: OpRefusal,
) -> Result<Part, Memory>
    ensures part { IfOk result (λ part. part
        ≡ record { span = whole; looks = looks.items; outcome = part.outcome; reference = None }) }
    ensures refused { IfOk result (λ part. IsRefusedBy whole args.now refusal part.outcome) }
{
    let outcome = refused_by(whole, args, refusal)?;
    Ok(Part::new(whole, looks, outcome, None))
}

/// A call that is an error.
pub(crate) fn error_part(whole: Span, looks: Vec<Cell>, kind: ErrorKind) -> Part
    ensures { result
        ≡ record { span = whole; looks = looks.items; outcome = fails kind; reference = None } }
{
    let fault = AbsArg::One(Abs::Known(Value::Error(kind)));
    Part::new(whole, looks, Outcome::Gives(fault), None)
}

/// A call with so many arguments that there is no such formula.
pub(crate) fn miscounted_part(alloc: Global, whole: Span, args: &[Part]) -> Result<Part, Memory>
    ensures { IfOk result (λ part. part ≡ record {
      span = whole;
      looks = all_looks (map argument args.now);
      outcome = fails kind.Value;
      reference = None;
    }) }
{
    let looks = all_looks(alloc, args)?;
    Ok(error_part(whole, looks, ErrorKind::Value))
}
