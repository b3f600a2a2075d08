// Calls of functions that look at all of their arguments.
ghost use Rattle.std.specs.Prelude.{◌≡◌, IfOk, None, length, map, true};
ghost use Rattle.form_extraction.specs.Parts.{argument, on_parts, outcome_by};
ghost use Rattle.form_functions.specs.Whole.{is_whole};
ghost use Rattle.form_table.specs.Table.{form_called};
ghost use Rattle.formula_ast.specs.Functions.{Takes};
ghost use Rattle.recalculation.specs.Looks.{all_looks};

use crate::arguments::{Values, all_looks, values_of};
use crate::outcomes::outcome_by;
use crate::part::Part;
use cell_refs::Span;
use form_extraction::Outcome;
use form_functions::form_called;
use formula_ast::Func;
use memory::Memory;
use std::alloc::Global;

/// A call of a function that looks at all of its arguments: the function itself where all are known, else its row.
pub fn called_part(
    alloc: Global,
    whole: Span,
    function: Func,
    args: Vec<Part>,
) -> Result<Part, Memory>
    requires takes { Takes function (length args.items) }
    requires whole { is_whole function ≡ true }
    ensures { IfOk result (λ part. part ≡ record {
      span = whole;
      looks = all_looks (map argument args.items);
      outcome = on_parts args.items
          (λ values. outcome_by whole args.items (form_called function values));
      reference = None;
    }) }
{
    let looks = all_looks(alloc, &args)?;
    let outcome = called_outcome(alloc, whole, function, &args)?;
    Ok(Part::new(whole, looks, outcome, None))
}

// What it comes to.
fn called_outcome(
    alloc: Global,
    whole: Span,
    function: Func,
    args: &[Part],
) -> Result<Outcome, Memory>
    requires takes { Takes function (length args.now) }
    requires whole { is_whole function ≡ true }
    ensures { IfOk result (λ outcome. outcome
        ≡ on_parts args.now (λ values. outcome_by whole args.now (form_called function values))) }
{
    let values = match values_of(alloc, args)? {
        Values::All(values) => values,
        Values::Stop(outcome) => return Ok(outcome),
    };
    outcome_by(whole, args, form_called(alloc, function, &values))
}
