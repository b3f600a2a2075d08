// How the basic variables move with a row's right side.
ghost use Rattle.std.specs.Prelude.{◌≡◌, ◌<◌, ◌+◌, ◌^◌, suc, length, MatchResult};
ghost use Rattle.optimality.specs.Kinds.{relation_of};
ghost use Rattle.price_laws.specs.Changes.{response as response_of};
ghost use Rattle.model_prices.specs.Own.{signed_sum as signed_sum_of};
ghost use Rattle.sensitivity.specs.Sums.{IsNarrowSigned, slope_at};

use frac128::{Frac, Wide};
use lin_model::Relation;
use simplex::column_with;
use tableau::Dict;

/// How the basic variable of the row moves where the bound of the row with that slack grows by 1.
pub(crate) fn response(dict: &Dict, row: u16, slack: u16) -> Frac
    requires { row < length dict.now.basic }
    ensures { result ≡ response_of dict.now row slack }
{
    if dict.basic(row) == slack {
        return Frac::one();
    }
    match column_with(dict, slack) {
        None => Frac::zero(),
        Some(col) => dict.entry(row, col).neg(),
    }
}

/// The sum over the standard rows of a row, each with its sign: an equation has two.
pub(crate) fn signed_sum(relation: Relation, first: Frac, second: Frac) -> Result<Frac, Wide>
    ensures { MatchResult result (λ x. (x ≡ signed_sum_of (relation_of relation) first second)
        × IsNarrowSigned (relation_of relation) first second)
        (λ _. ¬ (IsNarrowSigned (relation_of relation) first second)) }
{
    match relation {
        Relation::AtMost => Ok(first),
        Relation::AtLeast => Ok(first.neg()),
        Relation::Equal => first.sub(second),
    }
}

/// How the basic variable of the row moves with the right side of a row, whose first standard row has that slack.
pub(crate) fn slope(dict: &Dict, row: u16, relation: Relation, slack: u16) -> Result<Frac, Wide>
    requires row { row < length dict.now.basic }
    requires slack { suc slack < 2 ^ 16 }
    ensures { MatchResult result (λ x. (x ≡ slope_at dict.now (relation_of relation) slack row)
        × IsNarrowSigned (relation_of relation) (response_of dict.now row slack) (response_of dict.now row (suc slack)))
        (λ _. ¬ (IsNarrowSigned (relation_of relation) (response_of dict.now row slack) (response_of dict.now row (suc slack)))) }
{
    signed_sum(
        relation,
        response(dict, row, slack),
        response(dict, row, slack + 1),
    )
}
