// Two decisions of a group that are fixed to one number.
ghost use Rattle.std.specs.Prelude.{◌≡◌, ◌↔◌, IsTrue, Some, true};
ghost use Rattle.lin_model.specs.Lists.{lists_of};
ghost use Rattle.linear_models.specs.Box.{bound_at};
ghost use Rattle.linear_models.specs.Statement.{is_in};
ghost use Rattle.opt_certificate.specs.Clashes.{AreFixed, IsClash, IsFixedTo, ShareGroup};

use frac128::Frac;
use lin_model::{BoundBox, is_in};

// Whether the group has both decisions.
fn has_both(group: &[u16], one: u16, other: u16) -> bool
    ensures { IsTrue result
        ↔ ((is_in one group.now ≡ true) × (is_in other group.now ≡ true)) }
{
    is_in(one, group) && is_in(other, group)
}

// Whether one of the groups has both decisions.
fn share_group(groups: &[Vec<u16>], one: u16, other: u16) -> bool
    ensures { IsTrue result ↔ ShareGroup (lists_of groups.now) one other }
{
    for group in groups {
        if has_both(group, one, other) {
            return true;
        }
    }
    false
}

// The decision's bound in a list, none past its end.
fn bound_of(bounds: &[Option<Frac>], decision: u16) -> Option<Frac>
    ensures { result ≡ bound_at bounds.now decision }
{
    let place = decision as usize;
    if place < bounds.len() {
        bounds[place]
    } else {
        None
    }
}

// Whether the bound is that number.
fn is_at(bound: Option<Frac>, value: Frac) -> bool
    ensures { IsTrue result ↔ (bound ≡ Some value) }
{
    match bound {
        None => false,
        Some(number) => number == value,
    }
}

// Whether both bounds of the decision are that number.
fn is_fixed_to(within: &BoundBox, decision: u16, value: Frac) -> bool
    ensures { IsTrue result ↔ IsFixedTo within.now decision value }
{
    let least = bound_of(within.least(), decision);
    let greatest = bound_of(within.greatest(), decision);
    is_at(least, value) && is_at(greatest, value)
}

// Whether the bounds of both decisions are that number.
fn both_fixed(within: &BoundBox, one: u16, other: u16, value: Frac) -> bool
    ensures { IsTrue result
        ↔ (IsFixedTo within.now one value × IsFixedTo within.now other value) }
{
    is_fixed_to(within, one, value) && is_fixed_to(within, other, value)
}

// Whether the bounds of both decisions are one number.
fn are_fixed(within: &BoundBox, one: u16, other: u16) -> bool
    ensures { IsTrue result ↔ AreFixed within.now one other }
{
    match bound_of(within.least(), one) {
        None => false,
        Some(value) => both_fixed(within, one, other, value),
    }
}

// Whether one of the groups has both decisions, and their bounds are one number.
fn share_number(groups: &[Vec<u16>], within: &BoundBox, one: u16, other: u16) -> bool
    ensures { IsTrue result
        ↔ (ShareGroup (lists_of groups.now) one other × AreFixed within.now one other) }
{
    share_group(groups, one, other) && are_fixed(within, one, other)
}

/// Whether two different decisions of one of the groups are fixed to one number.
pub(crate) fn is_clash(groups: &[Vec<u16>], within: &BoundBox, one: u16, other: u16) -> bool
    ensures { IsTrue result ↔ IsClash (lists_of groups.now) within.now one other }
{
    if one == other {
        return false;
    }
    share_number(groups, within, one, other)
}
