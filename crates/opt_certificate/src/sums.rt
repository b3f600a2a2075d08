// Sums of products, in a stated order.
ghost use Rattle.affine_forms.specs.Answers.{AnswersInPlace};
ghost use Rattle.std.specs.Prelude.{◌≡◌, ◌∷◌, [], ◌<◌, ◌≤◌, All, length, map};
ghost use Rattle.fractions.specs.Rational.{zero_ℚ};
ghost use Rattle.fractions.specs.Vectors.{at};
ghost use Rattle.affine_forms.specs.Assigned.{ReachTo, assigned};
ghost use Rattle.affine_forms.specs.Lists.{summed};
ghost use Rattle.opt_certificate.specs.Sums.{bound_sum, column_sum, form_sum, added_up};

use frac128::{Frac, Wide};
use linear_programs::Inequality;

// The total with a product added.
fn add_product(total: Frac, x: Frac, y: Frac) -> Result<Frac, Wide>
    ensures { AnswersInPlace (added_up total ((x, y) ∷ [])) result }
{
    let product = x.mul(y)?;
    total.add(product)
}

/// A form's terms at a point, added to the start one after the other.
#[tactic(auto, using(crate::proofs::Totals::term_goes_on, crate::proofs::Totals::term_stops))]
pub(crate) fn terms_sum(start: Frac, terms: &[(u16, Frac)], point: &[Frac]) -> Result<Frac, Wide>
    requires { ReachTo terms.now (length point.now) }
    ensures { AnswersInPlace (summed (assigned point.now) start terms.now) result }
{
    let mut total = start;
    for (decision, coefficient) in terms {
        total = add_product(total, *coefficient, point[*decision as usize])?;
    }
    Ok(total)
}

/// The coefficient of a column in the combination of rows.
#[tactic(auto, using(crate::proofs::Totals::goes_on, crate::proofs::Totals::stops))]
pub(crate) fn column_sum(
    column: usize,
    multipliers: &[Frac],
    rows: &[Inequality],
) -> Result<Frac, Wide>
    requires few { length multipliers.now ≤ length rows.now }
    requires wide { All (λ r. column < length r.coefficients) rows.now }
    ensures { AnswersInPlace (column_sum column multipliers.now rows.now) result }
{
    let mut total = Frac::zero();
    for (place, multiplier) in multipliers.iter().enumerate() {
        let row = &rows[place];
        total = add_product(total, *multiplier, row.coefficients()[column])?;
    }
    Ok(total)
}

/// The bound of the combination of rows.
#[tactic(auto, using(crate::proofs::Totals::goes_on, crate::proofs::Totals::stops))]
pub(crate) fn bound_sum(multipliers: &[Frac], rows: &[Inequality]) -> Result<Frac, Wide>
    requires few { length multipliers.now ≤ length rows.now }
    ensures { AnswersInPlace (bound_sum multipliers.now rows.now) result }
{
    let mut total = Frac::zero();
    for (place, multiplier) in multipliers.iter().enumerate() {
        let row = &rows[place];
        total = add_product(total, *multiplier, row.bound())?;
    }
    Ok(total)
}
