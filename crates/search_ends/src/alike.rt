ghost use Rattle.std.specs.Prelude.{◌≡◌, ◌<◌, ◌≤◌, ℕ, All, MatchOption, length, true};
ghost use Rattle.linear_models.specs.Statement.{is_in};
ghost use Rattle.optimality.specs.Groups.{AreDifferent};
ghost use Rattle.searches.specs.Alike.{AreAlike, AreFirstAlike};
ghost use Rattle.search_ends.specs.Pairs.{IsFirstPair, IsPartner};

use frac128::Frac;
use lin_model::{LinModel, is_in};

// Of the decisions behind this one the first of the group that holds the same number.
fn partner(group: &[u16], point: &[Frac], one: usize) -> Option<usize>
    requires within { one < length point.now }
    requires few { length point.now ≤ 512 }
    requires below { All (λ j. j < length point.now) group.now }
    requires member { is_in one group.now ≡ true }
    ensures { MatchOption result ((j : ℕ) → ¬ (AreAlike point.now group.now one j))
        (λ j. IsPartner point.now group.now one j × (j < length point.now)) }
{
    for other in one + 1..point.len() {
        if point[other] == point[one] && is_in(other as u16, group) {
            return Some(other);
        }
    }
    None
}

// Of a group the first two decisions that hold the same number.
fn first_pair(group: &[u16], point: &[Frac]) -> Option<(usize, usize)>
    requires few { length point.now ≤ 512 }
    requires below { All (λ j. j < length point.now) group.now }
    ensures { MatchOption result ((i j : ℕ) → ¬ (AreAlike point.now group.now i j))
        (λ p. IsFirstPair point.now group.now p.0 p.1 × (p.1 < length point.now)) }
{
    for one in 0..point.len() {
        if is_in(one as u16, group) {
            match partner(group, point, one) {
                None => {}
                Some(other) => return Some((one, other)),
            }
        }
    }
    None
}

/// Of the first group that has any, the two decisions that hold the same number: the one of least number, and then the other.
pub(crate) fn first_alike(model: &LinModel, point: &[Frac]) -> Option<(usize, usize)>
    requires one_each { length point.now ≡ length model.now.whole }
    ensures { MatchOption result (All (AreDifferent point.now) model.now.groups)
        (λ p. AreFirstAlike point.now model.now.groups p.0 p.1 × (p.1 < length point.now)) }
{
    let groups = model.groups();
    for group in groups {
        match first_pair(group, point) {
            None => {}
            Some(pair) => return Some(pair),
        }
    }
    None
}
