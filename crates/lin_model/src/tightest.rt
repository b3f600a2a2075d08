// The bounds that a statement gives its decisions.
ghost use Rattle.std.specs.Prelude.{◌≡◌, ◌||◌, IfOk, None, length, flat_map, map, pos};
ghost use Rattle.std.specs.List.{range_with_len};
ghost use Rattle.fractions.specs.Floor.{floor_ℚ};
ghost use Rattle.fractions.specs.Rational.{zero_ℚ};
ghost use Rattle.fractions.specs.Whole.{whole_ℚ};
ghost use Rattle.linear_models.specs.Conditions.{constraint_of, constraints};
ghost use Rattle.linear_models.specs.Statement.{is_grouped, is_in};
ghost use Rattle.linear_models.specs.Bounds.{bounded_by, greatest_of, highest, highs_in, is_marked, is_number, least_of, lower_bounds, lowest, lows_in, size_in, upper_bounds, where_so};
ghost use Rattle.linear_models.specs.Linear.{linear};
ghost use Rattle.lin_model.specs.Inner.{lowered, raised, without_objective};
ghost use Rattle.lin_model.specs.Lists.{lists_of};

use crate::bounds::{BoundBox, greater, lesser};
use crate::conditions::{Condition, Conditions};
use crate::groups::{is_grouped, is_in};
use affine_forms::Form;
use frac128::Frac;
use memory::Memory;
use optimality::Relation;
use std::alloc::Global;

// The decision that a row bounds: its left side is that decision, and its right side a number.
pub(crate) fn decision_of(row: &Condition, right: &Form) -> Option<u16>
    ensures { result ≡ bounded_by row.now.own right.now.terms }
{
    match row.own() {
        None => None,
        Some(decision) => {
            if right.terms().is_empty() {
                Some(decision)
            } else {
                None
            }
        }
    }
}

// Whether the row bounds the decision.
fn is_bound_of(row: &Condition, right: &Form, decision: u16) -> bool
    ensures { result ≡ is_number decision (bounded_by row.now.own right.now.terms) }
{
    match decision_of(row, right) {
        None => false,
        Some(other) => other == decision,
    }
}

// The least value so far, raised to that of a row.
fn raised_by(
    start: Option<Frac>,
    row: &Condition,
    sides: &(Form, Form),
    decision: u16,
) -> Option<Frac>
    ensures { result ≡ raised start (lows_in decision (constraint_of row.now sides.now)) }
{
    let right = &sides.1;
    if !is_bound_of(row, right, decision) {
        return start;
    }
    match row.relation() {
        Relation::AtMost => start,
        Relation::Equal => Some(greater(start, right.base())),
        Relation::AtLeast => Some(greater(start, right.base())),
    }
}

// The least value that the rows give a decision.
#[tactic(auto, using(crate::proofs::Rules::raising))]
fn raised_by_rows(rows: &[Condition], sides: &[(Form, Form)], decision: u16) -> Option<Frac>
    requires { length sides.now ≡ length rows.now }
    ensures { result ≡ raised None (flat_map (lows_in decision) (constraints rows.now sides.now)) }
{
    let mut least = None;
    for (place, row) in rows.iter().enumerate() {
        least = raised_by(least, row, &sides[place], decision);
    }
    least
}

// The greatest value so far, lowered to that of a row.
fn lowered_by(
    start: Option<Frac>,
    row: &Condition,
    sides: &(Form, Form),
    decision: u16,
) -> Option<Frac>
    ensures { result ≡ lowered start (highs_in decision (constraint_of row.now sides.now)) }
{
    let right = &sides.1;
    if !is_bound_of(row, right, decision) {
        return start;
    }
    match row.relation() {
        Relation::AtMost => Some(lesser(start, right.base())),
        Relation::Equal => Some(lesser(start, right.base())),
        Relation::AtLeast => start,
    }
}

// The greatest value that the rows give a decision.
#[tactic(auto, using(crate::proofs::Rules::raising))]
fn lowered_by_rows(rows: &[Condition], sides: &[(Form, Form)], decision: u16) -> Option<Frac>
    requires { length sides.now ≡ length rows.now }
    ensures { result
        ≡ lowered None (flat_map (highs_in decision) (constraints rows.now sides.now)) }
{
    let mut greatest = None;
    for (place, row) in rows.iter().enumerate() {
        greatest = lowered_by(greatest, row, &sides[place], decision);
    }
    greatest
}

// A bound raised to a number where that is so.
fn raised_where(so: bool, number: Frac, least: Option<Frac>) -> Option<Frac>
    ensures { result ≡ raised least (where_so so number) }
{
    if so {
        Some(greater(least, number))
    } else {
        least
    }
}

// A bound lowered to a number where that is so.
fn lowered_where(so: bool, number: Frac, greatest: Option<Frac>) -> Option<Frac>
    ensures { result ≡ lowered greatest (where_so so number) }
{
    if so {
        Some(lesser(greatest, number))
    } else {
        greatest
    }
}

// How many decisions a group has, as a number.
fn size(group: &[u16]) -> Frac
    ensures { result ≡ whole_ℚ (pos (length group.now)) }
{
    Frac::from_whole(group.len() as i64)
}

// A bound lowered to the size of each group that has the decision.
#[tactic(auto, using(crate::proofs::Rules::raising))]
fn lowered_by_groups(start: Option<Frac>, groups: &[Vec<u16>], decision: u16) -> Option<Frac>
    ensures { result ≡ lowered start (flat_map (size_in decision) (lists_of groups.now)) }
{
    let mut greatest = start;
    for group in groups {
        greatest = lowered_where(is_in(decision, group), size(group), greatest);
    }
    greatest
}

// No bound, raised to each lower bound of a decision.
#[tactic(auto, using(crate::proofs::Rules::raising))]
fn raised_by_all(of: &Conditions, sides: &[(Form, Form)], decision: u16) -> Option<Frac>
    requires { length sides.now ≡ length of.now.rows }
    ensures { result ≡ raised None (lower_bounds (without_objective of.now sides.now) decision) }
{
    let rows = raised_by_rows(of.rows(), sides, decision);
    let zero = Frac::zero();
    let binary = raised_where(is_in(decision, of.binary()), zero, rows);
    let signed = of.not_negative() && !is_in(decision, of.explicit());
    let positive = raised_where(signed, zero, binary);
    raised_where(is_grouped(decision, of.groups()), Frac::one(), positive)
}

// The tightest lower bound of a decision.
fn lower_bound(of: &Conditions, sides: &[(Form, Form)], decision: u16) -> Option<Frac>
    requires { length sides.now ≡ length of.now.rows }
    ensures { result ≡ highest (lower_bounds (without_objective of.now sides.now) decision) }
{
    raised_by_all(of, sides, decision)
}

// No bound, lowered to each upper bound of a decision.
#[tactic(auto, using(crate::proofs::Rules::raising))]
fn lowered_by_all(of: &Conditions, sides: &[(Form, Form)], decision: u16) -> Option<Frac>
    requires { length sides.now ≡ length of.now.rows }
    ensures { result ≡ lowered None (upper_bounds (without_objective of.now sides.now) decision) }
{
    let rows = lowered_by_rows(of.rows(), sides, decision);
    let binary = lowered_where(is_in(decision, of.binary()), Frac::one(), rows);
    lowered_by_groups(binary, of.groups(), decision)
}

// The tightest upper bound of a decision.
fn upper_bound(of: &Conditions, sides: &[(Form, Form)], decision: u16) -> Option<Frac>
    requires { length sides.now ≡ length of.now.rows }
    ensures { result ≡ lowest (upper_bounds (without_objective of.now sides.now) decision) }
{
    lowered_by_all(of, sides, decision)
}

// The number rounded down.
fn rounded_down(x: Frac) -> Frac
    ensures { result ≡ whole_ℚ (floor_ℚ x) }
{
    let _num = x.num();
    match Frac::new(x.floor(), 1) {
        Some(number) => number,
        None => unreachable!(),
    }
}

// Whether a decision is to be whole.
fn is_marked(of: &Conditions, decision: u16) -> bool
    ensures { result ≡ (is_in decision of.now.whole || is_in decision of.now.binary)
        || is_grouped decision of.now.groups }
{
    let named = is_in(decision, of.whole()) || is_in(decision, of.binary());
    named || is_grouped(decision, of.groups())
}

// A decision's least value, rounded up where it is to be whole.
fn least_of(of: &Conditions, sides: &[(Form, Form)], decision: u16) -> Option<Frac>
    requires { length sides.now ≡ length of.now.rows }
    ensures { result ≡ least_of (without_objective of.now sides.now) decision }
{
    match lower_bound(of, sides, decision) {
        None => None,
        Some(bound) => {
            if is_marked(of, decision) {
                Some(rounded_down(bound.neg()).neg())
            } else {
                Some(bound)
            }
        }
    }
}

// A decision's greatest value, rounded down where it is to be whole.
fn greatest_of(of: &Conditions, sides: &[(Form, Form)], decision: u16) -> Option<Frac>
    requires { length sides.now ≡ length of.now.rows }
    ensures { result ≡ greatest_of (without_objective of.now sides.now) decision }
{
    match upper_bound(of, sides, decision) {
        None => None,
        Some(bound) => {
            if is_marked(of, decision) {
                Some(rounded_down(bound))
            } else {
                Some(bound)
            }
        }
    }
}

/// Which decisions are to be whole.
pub(crate) fn marks(
    alloc: Global,
    of: &Conditions,
    sides: &[(Form, Form)],
) -> Result<Vec<bool>, Memory>
    ensures { IfOk result (λ v. v.items ≡ (linear (without_objective of.now sides.now)).whole) }
{
    let mut all = Vec::new(alloc);
    for decision in 0..of.decisions() {
        all.push(is_marked(of, decision))?;
    }
    Ok(all)
}

// The least values of all decisions.
fn all_least(
    alloc: Global,
    of: &Conditions,
    sides: &[(Form, Form)],
) -> Result<Vec<Option<Frac>>, Memory>
    requires { length sides.now ≡ length of.now.rows }
    ensures { IfOk result (λ v. v.items
        ≡ (linear (without_objective of.now sides.now)).bounds.least) }
{
    let mut all = Vec::new(alloc);
    for decision in 0..of.decisions() {
        all.push(least_of(of, sides, decision))?;
    }
    Ok(all)
}

// The greatest values of all decisions.
fn all_greatest(
    alloc: Global,
    of: &Conditions,
    sides: &[(Form, Form)],
) -> Result<Vec<Option<Frac>>, Memory>
    requires { length sides.now ≡ length of.now.rows }
    ensures { IfOk result (λ v. v.items
        ≡ (linear (without_objective of.now sides.now)).bounds.greatest) }
{
    let mut all = Vec::new(alloc);
    for decision in 0..of.decisions() {
        all.push(greatest_of(of, sides, decision))?;
    }
    Ok(all)
}

/// The tightest bounds of all decisions.
pub(crate) fn bounds(
    alloc: Global,
    of: &Conditions,
    sides: &[(Form, Form)],
) -> Result<BoundBox, Memory>
    requires { length sides.now ≡ length of.now.rows }
    ensures { IfOk result (λ b. b ≡ (linear (without_objective of.now sides.now)).bounds) }
{
    let least = all_least(alloc, of, sides)?;
    let greatest = all_greatest(alloc, of, sides)?;
    Ok(BoundBox::new(least, greatest))
}
