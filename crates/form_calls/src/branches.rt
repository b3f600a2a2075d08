// IF.
ghost use Rattle.std.specs.Prelude.{◌≡◌, ◌<◌, ◌++◌, ◌∷◌, IfOk, List, length, map, option_map, slice_get};
ghost use Rattle.form_calls.specs.Steps.{branch_outcome};
ghost use Rattle.form_extraction.specs.Calls.{both_branches, chosen_or, if_outcome};
ghost use Rattle.form_extraction.specs.Deciding.{by_form};
ghost use Rattle.form_extraction.specs.Parts.{Part as PartOfFormula, argument};
ghost use Rattle.form_values.specs.declared.abs.Abs.TheVariants.{Known};
ghost use Rattle.form_values.specs.declared.abs.AbsArg.TheVariants.{One};
ghost use Rattle.formula_ast.specs.declared.func.Func.TheVariants as func;
ghost use Rattle.recalculation.specs.Evaluation.{at_chosen, if_place, if_without};
ghost use Rattle.recalculation.specs.Looks.{all_looks, choosing_looks, looks_of};
ghost use Rattle.sheet_model.specs.Conversions.{logical_in};

use crate::choices::chosen_part;
use crate::ends::{miscounted_part, valueless_part};
use affine_forms::Form;
use cell_refs::{Cell, Span};
use form_extraction::Outcome;
use form_ops::{if_test, value_of};
use form_parts::{Part, copy_outcome, outcome_by, push_looks};
use form_values::{Abs, AbsArg, Rel};
use memory::Memory;
use sheet_model::{Value, to_logical};
use std::alloc::Global;

/// IF: by a known test it looks at one branch, and of an open test at both.
#[tactic(auto, using(crate::proofs::Outcomes::stays))]
pub(crate) fn if_part(alloc: Global, whole: Span, args: &[Part]) -> Result<Part, Memory>
    ensures { IfOk result (λ part. part ≡ record {
      span = whole;
      looks = choosing_looks by_form func.If (map argument args.now);
      outcome = if_outcome whole args.now;
      reference = None;
    }) }
{
    let [test, others @ ..] = args else {
        return miscounted_part(alloc, whole, args);
    };
    let looks = Vec::from_slice(alloc, test.looks())?;
    let Some(value) = test.value() else {
        return valueless_part(alloc, whole, looks, test);
    };
    match value_of(value) {
        Ok(Abs::Known(value)) => known_test(alloc, whole, looks, value, others),
        Ok(Abs::Affine(open)) => open_test(alloc, whole, looks, &open.form, Rel::Ne, args),
        Ok(Abs::Test(open, relation)) => {
            open_test(alloc, whole, looks, &open.form, *relation, args)
        }
        Err(kind) => known_test(alloc, whole, looks, &Value::Error(kind), others),
    }
}

// The same of a known test.
fn known_test(
    alloc: Global,
    whole: Span,
    looks: Vec<Cell>,
    test: &Value,
    others: &[Part],
) -> Result<Part, Memory>
    ensures { IfOk result (λ part. part ≡ record {
      span = whole;
      looks = looks.items
          ++ looks_of (at_chosen (map argument others.now) (if_place (logical_in test.now)));
      outcome = chosen_or (One (Known (if_without (logical_in test.now))))
          (at_chosen others.now (if_place (logical_in test.now)));
      reference = None;
    }) }
{
    let without = AbsArg::One(Abs::Known(without_branch(test)));
    chosen_part(alloc, whole, looks, branch_of(test, others), without)
}

// The first branch where a test holds, and the second where it doesn't.
fn branch_of<'a>(test: &Value, others: &'a [Part]) -> Option<&'a Part>
    ensures { option_map (λ part. part.now) result
        ≡ at_chosen others.now (if_place (logical_in test.now)) }
{
    match to_logical(test) {
        Ok(true) => others.first(),
        Ok(false) => others.get(1),
        Err(_) => None,
    }
}

// The value of IF without the branch, or where its test is an error.
fn without_branch(test: &Value) -> Value
    ensures { result ≡ if_without (logical_in test.now) }
{
    match to_logical(test) {
        Ok(_) => Value::Logical(false),
        Err(kind) => Value::Error(kind),
    }
}

// The same of the open test whether a form is in a relation to 0.
fn open_test(
    alloc: Global,
    whole: Span,
    mut looks: Vec<Cell>,
    form: &Form,
    relation: Rel,
    args: &[Part],
) -> Result<Part, Memory>
    requires { 0 < length args.now }
    ensures { (p : PartOfFormula) (others : List PartOfFormula) → args.now ≡ p ∷ others
        → IfOk result (λ part. part ≡ record {
          span = whole;
          looks = looks.items ++ all_looks (map argument others);
          outcome = both_branches whole p others form.now relation;
          reference = None;
        }) }
{
    push_looks(&args[1..], &mut looks)?;
    let outcome = both_branches(alloc, whole, form, relation, args)?;
    Ok(Part::new(whole, looks, outcome, None))
}

// What both branches of an open test come to.
fn both_branches(
    alloc: Global,
    whole: Span,
    form: &Form,
    relation: Rel,
    args: &[Part],
) -> Result<Outcome, Memory>
    ensures { (p : PartOfFormula) (others : List PartOfFormula) → args.now ≡ p ∷ others
        → IfOk result (λ outcome. outcome ≡ both_branches whole p others form.now relation) }
{
    let without = Outcome::Gives(AbsArg::One(Abs::Known(Value::Logical(false))));
    let first = branch(args, 1, &without);
    let Outcome::Gives(holding) = first else {
        return copy_outcome(alloc, first);
    };
    let second = branch(args, 2, &without);
    let Outcome::Gives(failing) = second else {
        return copy_outcome(alloc, second);
    };
    outcome_by(
        whole,
        args,
        if_test(alloc, form, relation, holding, failing),
    )
}

// What a branch comes to, and what stands in the place of one that is left out.
fn branch<'a>(args: &'a [Part], place: usize, without: &'a Outcome) -> &'a Outcome
    ensures { result.now ≡ branch_outcome (slice_get args.now place) without.now }
{
    match args.get(place) {
        Some(part) => part.outcome(),
        None => without,
    }
}
