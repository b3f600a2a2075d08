// What parts of formulas come to.
ghost use Rattle.std.specs.Prelude.{[], ◌∷◌, ◌≡◌, IfOk};
ghost use Rattle.form_extraction.specs.Parts.{outcome_by, span_at};
ghost use Rattle.form_parts.specs.Steps.{IsRefusedBy};
ghost use Rattle.form_values.specs.Trials.{Answers, Trial};
ghost use Rattle.form_values.specs.declared.abs.AbsArg.{AbsArg};

use crate::part::Part;
use cell_refs::Span;
use form_extraction::{Outcome, Why};
use form_values::{AbsArg, OpRefusal};
use memory::Memory;
use std::alloc::Global;

/// What a call that stands at a place in the text comes to by what a row answers on the values of its arguments.
pub fn outcome_by(
    whole: Span,
    parts: &[Part],
    answer: Result<AbsArg, OpRefusal>,
) -> Result<Outcome, Memory>
    ensures { (c : Trial AbsArg) → Answers c answer
        → IfOk result (λ outcome. outcome ≡ outcome_by whole parts.now c) }
{
    match answer {
        Ok(value) => Ok(Outcome::Gives(value)),
        Err(refusal) => refused_by(whole, parts, refusal),
    }
}

/// The same of a row that is refused: what isn't affine and what is too wide is the whole, and what is open the argument.
pub fn refused_by(whole: Span, parts: &[Part], refusal: OpRefusal) -> Result<Outcome, Memory>
    ensures { IfOk result (λ outcome. IsRefusedBy whole parts.now refusal outcome) }
{
    match refusal {
        OpRefusal::Break => Ok(Outcome::Refused(whole, Why::Break)),
        OpRefusal::Undecided(place) => {
            Ok(Outcome::Refused(span_at(whole, parts, place), Why::Undecided))
        }
        OpRefusal::Wide => Ok(Outcome::Refused(whole, Why::Wide)),
        OpRefusal::Memory => Err(Memory),
    }
}

// The place of an argument in the text.
fn span_at(whole: Span, parts: &[Part], place: usize) -> Span
    ensures { result ≡ span_at whole parts.now place }
{
    match parts.get(place) {
        Some(part) => part.span,
        None => whole,
    }
}

/// What an operator between two parts comes to by what its row answers.
pub(crate) fn outcome_of_two(
    whole: Span,
    left: &Part,
    right: &Part,
    answer: Result<AbsArg, OpRefusal>,
) -> Result<Outcome, Memory>
    ensures { (c : Trial AbsArg) → Answers c answer
        → IfOk result (λ outcome. outcome ≡ outcome_by whole (left.now ∷ right.now ∷ []) c) }
{
    match answer {
        Ok(value) => Ok(Outcome::Gives(value)),
        Err(refusal) => refused_of_two(whole, left, right, refusal),
    }
}

// The same of a row that is refused.
fn refused_of_two(
    whole: Span,
    left: &Part,
    right: &Part,
    refusal: OpRefusal,
) -> Result<Outcome, Memory>
    ensures { IfOk result (λ outcome.
        IsRefusedBy whole (left.now ∷ right.now ∷ []) refusal outcome) }
{
    match refusal {
        OpRefusal::Break => Ok(Outcome::Refused(whole, Why::Break)),
        OpRefusal::Undecided(place) => {
            let at = span_of_two(whole, left, right, place);
            Ok(Outcome::Refused(at, Why::Undecided))
        }
        OpRefusal::Wide => Ok(Outcome::Refused(whole, Why::Wide)),
        OpRefusal::Memory => Err(Memory),
    }
}

// The place of one of two parts in the text.
fn span_of_two(whole: Span, left: &Part, right: &Part, place: usize) -> Span
    ensures { result ≡ span_at whole (left.now ∷ right.now ∷ []) place }
{
    if place == 0 {
        return left.span;
    }
    if place == 1 {
        return right.span;
    }
    whole
}

/// An equal outcome.
pub fn copy_outcome(alloc: Global, outcome: &Outcome) -> Result<Outcome, Memory>
    ensures { IfOk result (λ copy. copy ≡ outcome.now) }
{
    match outcome {
        Outcome::Gives(value) => Ok(Outcome::Gives(value.copy(alloc)?)),
        Outcome::Refused(at, cause) => Ok(Outcome::Refused(*at, *cause)),
        Outcome::Without => Ok(Outcome::Without),
    }
}
