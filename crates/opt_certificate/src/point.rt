// Points of a model.
ghost use Rattle.affine_forms.specs.Answers.{AnswersInPlace};
ghost use Rattle.std.specs.Prelude.{◌≡◌, ◌↔◌, ◌<◌, ℕ, All, IsTrue, Some, length, map};
ghost use Rattle.fractions.specs.Rational.{◌≤ℚ◌, ℚ, zero_ℚ};
ghost use Rattle.fractions.specs.Vectors.{at};
ghost use Rattle.optimality.specs.Kinds.{relation_of};
ghost use Rattle.linear_models.specs.Box.{InBox, bound_at};
ghost use Rattle.affine_forms.specs.Assigned.{ReachTo};
ghost use Rattle.linear_models.specs.Model.{AreWhole, IsPoint, IsValid};
ghost use Rattle.optimality.specs.Optimal.{Stand};
ghost use Rattle.opt_certificate.specs.Checks.{RowsAreNarrow};
ghost use Rattle.opt_certificate.specs.Judged.{Judged};
ghost use Rattle.opt_certificate.specs.Rows.{RowIsNarrow, RowStands, based};
ghost use Rattle.opt_certificate.specs.Sums.{form_sum};

use crate::groups::are_different;
use crate::sums::terms_sum;
use frac128::{Frac, Wide};
use lin_model::{FormRow, LinModel, Relation};

// Whether the number is in the relation to 0.
fn stands(relation: Relation, x: Frac) -> bool
    ensures { IsTrue result ↔ Stand (relation_of relation) x zero_ℚ }
{
    match relation {
        Relation::AtMost => !x.is_positive(),
        Relation::Equal => x.is_zero(),
        Relation::AtLeast => !x.is_negative(),
    }
}

// A row's number at a point, or without its constant along a direction.
fn row_sum(row: &FormRow, point: &[Frac], with_constant: bool) -> Result<Frac, Wide>
    requires { ReachTo row.now.0.terms (length point.now) }
    ensures { AnswersInPlace (form_sum (based with_constant row.now.0) point.now) result }
{
    let form = row.form();
    if with_constant {
        return form.eval(point);
    }
    terms_sum(Frac::zero(), form.terms(), point)
}

// Whether a row holds there.
fn row_stands(row: &FormRow, point: &[Frac], with_constant: bool) -> Result<bool, Wide>
    requires { ReachTo row.now.0.terms (length point.now) }
    ensures { Judged (RowStands with_constant point.now row.now)
        (RowIsNarrow with_constant point.now row.now) result }
{
    let sum = row_sum(row, point, with_constant)?;
    Ok(stands(row.relation(), sum))
}

/// Whether each row holds there.
pub(crate) fn rows_stand(
    rows: &[FormRow],
    point: &[Frac],
    with_constant: bool,
) -> Result<bool, Wide>
    requires { All (λ r. ReachTo r.0.terms (length point.now)) rows.now }
    ensures { Judged (All (RowStands with_constant point.now) rows.now)
        (All (RowIsNarrow with_constant point.now) rows.now) result }
{
    for row in rows {
        if !row_stands(row, point, with_constant)? {
            return Ok(false);
        }
    }
    Ok(true)
}

// Whether each decision that is to be whole is.
fn are_whole(marks: &[bool], point: &[Frac]) -> bool
    requires { length point.now ≡ length marks.now }
    ensures { IsTrue result ↔ AreWhole marks.now point.now }
{
    for (decision, mark) in marks.iter().enumerate() {
        if *mark && !point[decision].is_whole() {
            return false;
        }
    }
    true
}

// Whether each number is at least its least value.
fn are_above(bounds: &[Option<Frac>], point: &[Frac]) -> bool
    requires { length point.now ≡ length bounds.now }
    ensures { IsTrue result
        ↔ ((j : ℕ) (b : ℚ) → bound_at bounds.now j ≡ Some b → b ≤ℚ at point.now j) }
{
    for (decision, bound) in bounds.iter().enumerate() {
        if let Some(least) = *bound {
            if point[decision].is_below(least) {
                return false;
            }
        }
    }
    true
}

// Whether each number is at most its greatest value.
fn are_below(bounds: &[Option<Frac>], point: &[Frac]) -> bool
    requires { length point.now ≡ length bounds.now }
    ensures { IsTrue result
        ↔ ((j : ℕ) (b : ℚ) → bound_at bounds.now j ≡ Some b → at point.now j ≤ℚ b) }
{
    for (decision, bound) in bounds.iter().enumerate() {
        if let Some(greatest) = *bound {
            if greatest.is_below(point[decision]) {
                return false;
            }
        }
    }
    true
}

/// Whether the numbers are a point of the model.
pub(crate) fn is_point(of: &LinModel, point: &[Frac]) -> Result<bool, Wide>
    requires valid { IsValid of.now }
    requires one_each { length point.now ≡ length of.now.whole }
    ensures { Judged (IsPoint of.now point.now) (RowsAreNarrow of.now point.now) result }
{
    if !are_whole(of.whole(), point) {
        return Ok(false);
    }
    if !are_above(of.bounds().least(), point) {
        return Ok(false);
    }
    if !are_below(of.bounds().greatest(), point) {
        return Ok(false);
    }
    if !are_different(of.groups(), point) {
        return Ok(false);
    }
    rows_stand(of.rows(), point, true)
}
