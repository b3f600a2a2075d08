// Lists of terms that are looked at and not changed.
ghost use Rattle.std.specs.Prelude.{◌≡◌, ◌+◌, ◌&&◌, ◌∷◌, ◌↔◌, IsTrue, List, ℕ, drop, length};
ghost use Rattle.affine_forms.specs.Answers.{AnswersInPlace};
ghost use Rattle.affine_forms.specs.Assigned.{ReachTo, assigned};
ghost use Rattle.affine_forms.specs.Forms.{RiseFrom, coefficient, same_terms};
ghost use Rattle.affine_forms.specs.Lists.{IsBehind, summed};
ghost use Rattle.affine_forms.specs.Steps.{scaled_terms};
ghost use Rattle.calculations.specs.Calculation.{turned_into};
ghost use Rattle.fractions.specs.Rational.{ℚ};

use crate::steps::{add, equal, multiply};
use frac128::{Frac, Wide};

/// The coefficient of a decision, 0 where it has no term.
pub(crate) fn coefficient_of(terms: &[(u16, Frac)], j: u16) -> Frac
    ensures { result ≡ coefficient terms.now j }
{
    for (k, c) in terms {
        if *k == j {
            return *c;
        }
    }
    Frac::zero()
}

/// Whether two lists have the same terms.
pub(crate) fn are_same(left: &[(u16, Frac)], right: &[(u16, Frac)]) -> bool
    ensures { result ≡ same_terms left.now right.now }
{
    for (i, (j, c)) in right.iter().enumerate() {
        if !is_at(left, i, *j, *c) {
            return false;
        }
    }
    left.len() <= right.len()
}

/// Whether the terms are others times a number.
pub(crate) fn are_scaled(
    terms: &[(u16, Frac)],
    k: Frac,
    others: &[(u16, Frac)],
) -> Result<bool, Wide>
    ensures { AnswersInPlace
        (turned_into (same_terms terms.now) (scaled_terms k others.now)) result }
{
    let mut same = true;
    let mut i = 0;
    for (j, c) in others {
        let product = multiply(*c, k)?;
        if !product.is_zero() {
            let here = is_at(terms, i, *j, product);
            same = same && here;
            i += 1;
        }
    }
    Ok(same && i >= terms.len())
}

// Whether a term stands at a place.
fn is_at(terms: &[(u16, Frac)], i: usize, j: u16, c: Frac) -> bool
    ensures { (others : List (ℕ × ℚ)) → same_terms (drop i terms.now) ((j, c) ∷ others)
        ≡ (result && same_terms (drop (i + 1) terms.now) others) }
{
    if i < terms.len() {
        let term = terms[i];
        term.0 == j && equal(term.1, c)
    } else {
        false
    }
}

/// Whether the decisions of the first terms all lie below those of the others.
pub(crate) fn lie_behind(left: &[(u16, Frac)], right: &[(u16, Frac)]) -> bool
    requires { RiseFrom 0 left.now }
    ensures { IsTrue result → IsBehind left.now right.now }
{
    if left.is_empty() || right.is_empty() {
        return true;
    }
    left[left.len() - 1].0 < right[0].0
}

/// Whether the decisions of the terms are below a bound.
pub(crate) fn are_below(terms: &[(u16, Frac)], bound: usize) -> bool
    requires { RiseFrom 0 terms.now }
    ensures { IsTrue result ↔ ReachTo terms.now bound }
{
    if terms.is_empty() {
        return true;
    }
    (terms[terms.len() - 1].0 as usize) < bound
}

/// The value of terms behind a number.
pub(crate) fn value_at(base: Frac, terms: &[(u16, Frac)], at: &[Frac]) -> Result<Frac, Wide>
    requires { ReachTo terms.now (length at.now) }
    ensures { AnswersInPlace (summed (assigned at.now) base terms.now) result }
{
    let mut total = base;
    for (j, c) in terms {
        let product = multiply(*c, at[*j as usize])?;
        total = add(total, product)?;
    }
    Ok(total)
}
