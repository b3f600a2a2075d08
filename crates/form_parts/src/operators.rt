// The operators on parts of formulas.
ghost use Rattle.std.specs.Prelude.{◌≡◌, [], ◌∷◌, IfOk};
ghost use Rattle.form_extraction.specs.Formulas.{joined, signed, turned};
ghost use Rattle.form_extraction.specs.Parts.{on_part, outcome_by};
ghost use Rattle.form_table.specs.Operators.{minus_form, percent_form};

use crate::outcomes::{copy_outcome, outcome_by, outcome_of_two};
use crate::part::Part;
use cell_refs::{Op, Span};
use form_extraction::Outcome;
use form_ops::{infix, minus, percent};
use memory::Memory;
use std::alloc::Global;

/// A part with a plus in front, which changes nothing but its place in the text.
pub fn plus_part(span: Span, part: Part) -> Part
    ensures { result ≡ signed span part }
{
    let Part {
        span: _,
        looks,
        outcome,
        reference,
    } = part;
    Part::new(span, looks, outcome, reference)
}

/// A part with a minus in front.
pub fn minus_part(alloc: Global, span: Span, part: Part) -> Result<Part, Memory>
    ensures { IfOk result (λ whole. whole ≡ turned span minus_form part) }
{
    let outcome = minus_outcome(alloc, span, &part)?;
    Ok(Part::new(span, part.looks, outcome, None))
}

/// A part with a percent sign behind.
pub fn percent_part(alloc: Global, span: Span, part: Part) -> Result<Part, Memory>
    ensures { IfOk result (λ whole. whole ≡ turned span percent_form part) }
{
    let outcome = percent_outcome(alloc, span, &part)?;
    Ok(Part::new(span, part.looks, outcome, None))
}

/// An operator between two parts.
pub fn infix_part(
    alloc: Global,
    span: Span,
    op: Op,
    left: Part,
    right: Part,
) -> Result<Part, Memory>
    ensures { IfOk result (λ whole. whole ≡ joined span op left right) }
{
    let outcome = infix_outcome(alloc, span, op, &left, &right)?;
    let Part {
        span: _,
        mut looks,
        outcome: _,
        reference: _,
    } = left;
    let Part {
        span: _,
        looks: others,
        outcome: _,
        reference: _,
    } = right;
    looks.extend_from_slice(&others)?;
    Ok(Part::new(span, looks, outcome, None))
}

// What a part with a minus in front comes to.
fn minus_outcome(alloc: Global, span: Span, part: &Part) -> Result<Outcome, Memory>
    ensures { IfOk result (λ outcome. outcome
        ≡ on_part part.now (λ a. outcome_by span (part.now ∷ []) (minus_form a))) }
{
    let Outcome::Gives(value) = &part.outcome else {
        return copy_outcome(alloc, &part.outcome);
    };
    outcome_by(span, std::slice::from_ref(part), minus(alloc, value))
}

// What a part with a percent sign behind comes to.
fn percent_outcome(alloc: Global, span: Span, part: &Part) -> Result<Outcome, Memory>
    ensures { IfOk result (λ outcome. outcome
        ≡ on_part part.now (λ a. outcome_by span (part.now ∷ []) (percent_form a))) }
{
    let Outcome::Gives(value) = &part.outcome else {
        return copy_outcome(alloc, &part.outcome);
    };
    outcome_by(span, std::slice::from_ref(part), percent(alloc, value))
}

// What an operator between two parts comes to.
fn infix_outcome(
    alloc: Global,
    span: Span,
    op: Op,
    left: &Part,
    right: &Part,
) -> Result<Outcome, Memory>
    ensures { IfOk result (λ outcome. outcome ≡ (joined span op left.now right.now).outcome) }
{
    let Outcome::Gives(first) = &left.outcome else {
        return copy_outcome(alloc, &left.outcome);
    };
    let Outcome::Gives(second) = &right.outcome else {
        return copy_outcome(alloc, &right.outcome);
    };
    outcome_of_two(span, left, right, infix(alloc, op, first, second))
}
