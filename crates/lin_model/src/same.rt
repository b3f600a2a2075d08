// Whether two linear models are equal.
ghost use Rattle.std.specs.Prelude.{◌≡◌, ◌↔◌, IsTrue};
ghost use Rattle.optimality.specs.Kinds.{goal_of};
ghost use Rattle.lin_model.specs.Lists.{lists_of};

use crate::bounds::BoundBox;
use crate::model::{FormRow, LinModel};
use frac128::Frac;
use optimality::Goal;

fn same_row(one: &FormRow, other: &FormRow) -> bool
    ensures { IsTrue result ↔ (one.now ≡ other.now) }
{
    one.relation() == other.relation() && one.form().same(other.form())
}

fn same_rows(one: &[FormRow], other: &[FormRow]) -> bool
    ensures { IsTrue result ↔ (one.now ≡ other.now) }
{
    if one.len() != other.len() {
        return false;
    }
    for (place, row) in one.iter().enumerate() {
        if !same_row(row, &other[place]) {
            return false;
        }
    }
    true
}

fn same_bound(one: Option<Frac>, other: Option<Frac>) -> bool
    ensures { IsTrue result ↔ (one ≡ other) }
{
    match one {
        None => other.is_none(),
        Some(number) => match other {
            None => false,
            Some(another) => number == another,
        },
    }
}

fn same_bounds(one: &[Option<Frac>], other: &[Option<Frac>]) -> bool
    ensures { IsTrue result ↔ (one.now ≡ other.now) }
{
    if one.len() != other.len() {
        return false;
    }
    for (place, bound) in one.iter().enumerate() {
        if !same_bound(*bound, other[place]) {
            return false;
        }
    }
    true
}

fn same_box(one: &BoundBox, other: &BoundBox) -> bool
    ensures { IsTrue result ↔ (one.now ≡ other.now) }
{
    same_bounds(one.least(), other.least()) && same_bounds(one.greatest(), other.greatest())
}

fn same_goal(one: Goal, other: Goal) -> bool
    ensures { IsTrue result ↔ (goal_of one ≡ goal_of other) }
{
    one == other
}

fn same_marks(one: &[bool], other: &[bool]) -> bool
    ensures { IsTrue result ↔ (one.now ≡ other.now) }
{
    one == other
}

fn same_group(one: &[u16], other: &[u16]) -> bool
    ensures { IsTrue result ↔ (one.now ≡ other.now) }
{
    one == other
}

fn same_groups(one: &[Vec<u16>], other: &[Vec<u16>]) -> bool
    ensures { IsTrue result ↔ (lists_of one.now ≡ lists_of other.now) }
{
    if one.len() != other.len() {
        return false;
    }
    for (place, group) in one.iter().enumerate() {
        if !same_group(group, &other[place]) {
            return false;
        }
    }
    true
}

impl LinModel {
    /// Whether the two are equal.
    pub fn same(&self, other: &LinModel) -> bool
        ensures { IsTrue result ↔ (self.now ≡ other.now) }
    {
        same_goal(self.goal(), other.goal())
            && self.objective().same(other.objective())
            && same_rows(self.rows(), other.rows())
            && same_marks(self.whole(), other.whole())
            && same_box(self.bounds(), other.bounds())
            && same_groups(self.groups(), other.groups())
    }
}
