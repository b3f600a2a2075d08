// Directions that lead out of a model.
ghost use Rattle.std.specs.Prelude.{◌≡◌, ◌↔◌, ◌<◌, ℕ, All, IsTrue, Some, length};
ghost use Rattle.fractions.specs.Rational.{◌≤ℚ◌, ◌<ℚ◌, ℚ, zero_ℚ};
ghost use Rattle.fractions.specs.Vectors.{at};
ghost use Rattle.linear_models.specs.Box.{bound_at};
ghost use Rattle.opt_certificate.specs.Certificate.{IsWayOut};
ghost use Rattle.affine_forms.specs.Assigned.{ReachTo};
ghost use Rattle.linear_models.specs.Worths.{form_at};
ghost use Rattle.linear_models.specs.Model.{IsValid, maximised};
ghost use Rattle.opt_certificate.specs.Checks.{StepsAreNarrow, without_constant};
ghost use Rattle.opt_certificate.specs.Judged.{Judged};
ghost use Rattle.opt_certificate.specs.Sums.{StaysNarrow, form_sum};

use crate::point::rows_stand;
use crate::sums::terms_sum;
use affine_forms::Form;
use frac128::{Frac, Wide};
use lin_model::LinModel;

// Whether no number with a least value falls along the direction.
fn none_falls(bounds: &[Option<Frac>], direction: &[Frac]) -> bool
    requires { length direction.now ≡ length bounds.now }
    ensures { IsTrue result
        ↔ ((j : ℕ) (b : ℚ) → bound_at bounds.now j ≡ Some b → zero_ℚ ≤ℚ at direction.now j) }
{
    for (decision, bound) in bounds.iter().enumerate() {
        if let Some(_least) = *bound {
            if direction[decision].is_negative() {
                return false;
            }
        }
    }
    true
}

// Whether no number with a greatest value rises.
fn none_rises(bounds: &[Option<Frac>], direction: &[Frac]) -> bool
    requires { length direction.now ≡ length bounds.now }
    ensures { IsTrue result
        ↔ ((j : ℕ) (b : ℚ) → bound_at bounds.now j ≡ Some b → at direction.now j ≤ℚ zero_ℚ) }
{
    for (decision, bound) in bounds.iter().enumerate() {
        if let Some(_greatest) = *bound {
            if direction[decision].is_positive() {
                return false;
            }
        }
    }
    true
}

// Whether the form rises along the direction.
fn rises(form: &Form, direction: &[Frac]) -> Result<bool, Wide>
    requires { ReachTo form.now.terms (length direction.now) }
    ensures { Judged (zero_ℚ <ℚ form_at (without_constant form.now) direction.now)
        (StaysNarrow (form_sum (without_constant form.now) direction.now)) result }
{
    let sum = terms_sum(Frac::zero(), form.terms(), direction)?;
    Ok(sum.is_positive())
}

/// Whether the direction keeps every row and bound however far it is followed, and improves the objective, which is the
/// form that is to be as great as can be.
pub(crate) fn is_way_out(of: &LinModel, wanted: &Form, direction: &[Frac]) -> Result<bool, Wide>
    requires valid { IsValid of.now }
    requires wanted { wanted.now ≡ maximised of.now.goal of.now.objective }
    requires below { ReachTo wanted.now.terms (length of.now.whole) }
    requires one_each { length direction.now ≡ length of.now.whole }
    ensures { Judged (IsWayOut of.now direction.now) (StepsAreNarrow of.now direction.now
        × StaysNarrow (form_sum (without_constant wanted.now) direction.now)) result }
{
    if !none_falls(of.bounds().least(), direction) {
        return Ok(false);
    }
    if !none_rises(of.bounds().greatest(), direction) {
        return Ok(false);
    }
    if !rows_stand(of.rows(), direction, false)? {
        return Ok(false);
    }
    rises(wanted, direction)
}
