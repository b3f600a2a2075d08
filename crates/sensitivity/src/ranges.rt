// The range of a row's right side.
ghost use Rattle.std.specs.Prelude.{◌≡◌, ◌≢◌, ◌<◌, ◌^◌, suc, length, MatchResult, Option};
ghost use Rattle.fractions.specs.Rational.{zero_ℚ, neg_ℚ, ◌/ℚ◌};
ghost use Rattle.frac128.specs.Narrow.{IsNarrow};
ghost use Rattle.optimality.specs.Kinds.{relation_of};
ghost use Rattle.price_laws.specs.Ranges.{greater as greater_of, lesser as lesser_of, low_of, high_of};
ghost use Rattle.sensitivity.specs.Sums.{basic_at, basics_from, low_after, high_after, IsNarrowBasic, AreNarrowFrom};

use crate::slopes::slope;
use frac128::{Frac, Wide};
use lin_model::Relation;
use tableau::Dict;

/// The ends of a range, where there are such.
#[derive(Clone, Copy)]
pub(crate) struct Ends {
    pub low: Option<Frac>,
    pub high: Option<Frac>,
}

/// The greater of a number that may be there and another.
fn greater(of: Option<Frac>, other: Frac) -> Frac
    ensures { result ≡ greater_of of other }
{
    match of {
        None => other,
        Some(own) => { if own.is_below(other) { other } else { own } }
    }
}

/// The lesser of a number that may be there and another.
fn lesser(of: Option<Frac>, other: Frac) -> Frac
    ensures { result ≡ lesser_of of other }
{
    match of {
        None => other,
        Some(own) => { if other.is_below(own) { other } else { own } }
    }
}

/// The change at which a basic variable of this constant and slope is 0.
fn end(constant: Frac, slope: Frac) -> Result<Frac, Wide>
    requires { slope ≢ zero_ℚ }
    ensures { MatchResult result (λ x. (x ≡ neg_ℚ constant /ℚ slope)
        × IsNarrow (neg_ℚ constant /ℚ slope)) (λ _. ¬ (IsNarrow (neg_ℚ constant /ℚ slope))) }
{
    constant.neg().div(slope)
}

/// The range once the basic variable of the row counts too.
fn range_step(
    dict: &Dict,
    relation: Relation,
    slack: u16,
    row: u16,
    so_far: Ends,
) -> Result<Ends, Wide>
    requires row { row < length dict.now.basic }
    requires slack { suc slack < 2 ^ 16 }
    ensures { MatchResult result
        (λ r. (r.low ≡ low_after (basic_at dict.now (relation_of relation) slack row) so_far.low)
        × (r.high ≡ high_after (basic_at dict.now (relation_of relation) slack row) so_far.high)
        × IsNarrowBasic dict.now (relation_of relation) slack row)
        (λ _. ¬ (IsNarrowBasic dict.now (relation_of relation) slack row)) }
{
    let own = slope(dict, row, relation, slack)?;
    if own.is_positive() {
        let zero = end(dict.rest(row), own)?;
        return Ok(Ends {
            low: Some(greater(so_far.low, zero)),
            high: so_far.high,
        });
    }
    if own.is_negative() {
        let zero = end(dict.rest(row), own)?;
        return Ok(Ends {
            low: so_far.low,
            high: Some(lesser(so_far.high, zero)),
        });
    }
    Ok(so_far)
}

/// The range of a row's right side, whose first standard row has that slack: until a basic variable is negative.
pub(crate) fn range(dict: &Dict, relation: Relation, slack: u16) -> Result<Ends, Wide>
    requires slack { suc slack < 2 ^ 16 }
    ensures { MatchResult result
        (λ r. (r.low ≡ low_of (basics_from dict.now (relation_of relation) slack 0 (length dict.now.basic)))
        × (r.high ≡ high_of (basics_from dict.now (relation_of relation) slack 0 (length dict.now.basic)))
        × AreNarrowFrom dict.now (relation_of relation) slack 0)
        (λ _. ¬ (AreNarrowFrom dict.now (relation_of relation) slack 0)) }
{
    let mut found = Ends {
        low: None,
        high: None,
    };
    let mut row = dict.height();
    while row > 0 {
        row -= 1;
        found = range_step(dict, relation, slack, row, found)?;
    }
    Ok(found)
}
