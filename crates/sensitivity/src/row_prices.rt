// The price of a row, with the range in which it holds.
ghost use Rattle.std.specs.Prelude.{◌≡◌, ◌<◌, ◌+◌, ◌^◌, suc, length, MatchResult};
ghost use Rattle.fractions.specs.Vectors.{at};
ghost use Rattle.optimality.specs.Kinds.{goal_of, relation_of};
ghost use Rattle.model_prices.specs.Rows.{signs_of};
ghost use Rattle.model_prices.specs.Prices.{turned};
ghost use Rattle.model_prices.specs.Own.{relation_at, first_of, first_slack};
ghost use Rattle.sensitivity.specs.Prices.{last_multipliers, price_at, IsNarrowRow};

use crate::ranges::range;
use crate::slopes::signed_sum;
use frac128::{Frac, Wide};
use lin_model::{Goal, LinModel, Relation};
use tableau::Dict;

/// The price of the row at that place of a model, and the changes of its right side between which it holds.
#[derive(Clone, Copy)]
pub struct Price {
    /// The place of the row in the model, from 0.
    pub row: u16,
    pub price: Frac,
    pub low: Option<Frac>,
    pub high: Option<Frac>,
}

/// The number at the place, and 0 past the end.
fn number_at(list: &[Frac], place: usize) -> Frac
    ensures { result ≡ at list.now place }
{
    if place < list.len() {
        list[place]
    } else {
        Frac::zero()
    }
}

/// A number of the standard program as one of the model.
pub(crate) fn in_model(goal: Goal, number: Frac) -> Frac
    ensures { result ≡ turned (goal_of goal) number }
{
    match goal {
        Goal::Max => number,
        Goal::Min => number.neg(),
        Goal::Reach(_) => number,
    }
}

/// How many standard rows a row has.
pub(crate) fn standard_rows(relation: Relation) -> u16
    ensures { result ≡ length (signs_of (relation_of relation)) }
{
    match relation {
        Relation::AtMost => 1,
        Relation::AtLeast => 1,
        Relation::Equal => 2,
    }
}

/// The relation of the row at the place.
pub(crate) fn relation_of_row(of: &LinModel, place: u16) -> Relation
    requires { place < length of.now.rows }
    ensures { relation_of result ≡ relation_at of.now.rows place }
{
    of.rows()[place as usize].relation()
}

/// The price of the row at the place, of whose standard rows the first has that place and that slack.
pub(crate) fn price_of_row(
    of: &LinModel,
    dict: &Dict,
    multipliers: &[Frac],
    place: u16,
    first: u16,
    slack: u16,
) -> Result<Price, Wide>
    requires place { place < length of.now.rows }
    requires multipliers { multipliers.now ≡ last_multipliers of.now dict.now }
    requires first { first ≡ first_of of.now.rows place }
    requires slack { slack ≡ first_slack of.now place }
    requires small { suc slack < 2 ^ 16 }
    ensures { MatchResult result (λ x. (x ≡ price_at of.now dict.now place)
        × IsNarrowRow of.now dict.now place) (λ _. ¬ (IsNarrowRow of.now dict.now place)) }
{
    let relation = relation_of_row(of, place);
    let sum = signed_sum(
        relation,
        number_at(multipliers, first as usize),
        number_at(multipliers, first as usize + 1),
    )?;
    let ends = range(dict, relation, slack)?;
    Ok(Price {
        row: place,
        price: in_model(of.goal(), sum),
        low: ends.low,
        high: ends.high,
    })
}
