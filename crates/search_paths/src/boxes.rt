ghost use Rattle.std.specs.Prelude.{◌≡◌, ◌↔◌, IfOk, IsTrue, slice_set};
ghost use Rattle.fractions.specs.Whole.{whole_ℚ};
ghost use Rattle.frac128.specs.Narrow.{IsNarrowWhole};
ghost use Rattle.linear_models.specs.Box.{bound_at, greater, lesser};
ghost use Rattle.searches.specs.Trees.{part_of};
ghost use Rattle.search_paths.specs.Walks.{bound_in, with_bound};

use crate::part::Part;
use frac128::Frac;
use lin_model::BoundBox;
use memory::Memory;
use std::alloc::Global;

// A whole number that fits.
fn whole(n: i128) -> Frac
    requires { IsNarrowWhole n }
    ensures { result ≡ whole_ℚ n }
{
    match Frac::new(n, 1) {
        Some(number) => number,
        None => unreachable!(),
    }
}

// The lesser of a greatest value that may be there and another.
fn lesser(bound: Option<Frac>, other: Frac) -> Frac
    ensures { result ≡ lesser bound other }
{
    match bound {
        None => other,
        Some(greatest) => {
            if other.is_below(greatest) {
                other
            } else {
                greatest
            }
        }
    }
}

// The greater of a least value that may be there and another.
fn greater(bound: Option<Frac>, other: Frac) -> Frac
    ensures { result ≡ greater bound other }
{
    match bound {
        None => other,
        Some(least) => { if least.is_below(other) { other } else { least } }
    }
}

pub(crate) fn copy_bounds(
    alloc: Global,
    bounds: &[Option<Frac>],
) -> Result<Vec<Option<Frac>>, Memory>
    ensures { IfOk result (λ v. v.items ≡ bounds.now) }
{
    Ok(Vec::from_slice(alloc, bounds)?)
}

// A decision's bound, none past the last one.
fn bound_at(bounds: &[Option<Frac>], decision: usize) -> Option<Frac>
    ensures { result ≡ bound_at bounds.now decision }
{
    if decision < bounds.len() {
        return bounds[decision];
    }
    None
}

// Sets a decision's bound. One past the last has none.
fn set_bound(bounds: &mut [Option<Frac>], decision: usize, bound: Option<Frac>)
    ensures { bounds.new ≡ slice_set bounds.old decision bound }
{
    if decision < bounds.len() {
        bounds[decision] = bound;
    }
}

/// The bound in whose place the part puts another.
pub(crate) fn bound_in(
    part: &Part,
    least: &[Option<Frac>],
    greatest: &[Option<Frac>],
) -> Option<Frac>
    ensures { result ≡ bound_in (record { least = least.now; greatest = greatest.now }) part.now }
{
    let (decision, is_upper, _) = part.step();
    if is_upper {
        return bound_at(least, decision as usize);
    }
    bound_at(greatest, decision as usize)
}

/// The part of the box: a decision past the last one has no bounds.
pub(crate) fn narrow(part: &Part, least: &mut [Option<Frac>], greatest: &mut [Option<Frac>])
    ensures { record { least = least.new; greatest = greatest.new }
        ≡ part_of (record { least = least.old; greatest = greatest.old }) part.now }
{
    let (decision, is_upper, bound) = part.step();
    let decision = decision as usize;
    let bound = whole(bound);
    if is_upper {
        if decision < least.len() {
            least[decision] = Some(greater(least[decision], bound));
        }
        return;
    }
    if decision < greatest.len() {
        greatest[decision] = Some(lesser(greatest[decision], bound));
    }
}

/// The box with another bound in the place of the part's.
pub(crate) fn restore(
    part: &Part,
    least: &mut [Option<Frac>],
    greatest: &mut [Option<Frac>],
    bound: Option<Frac>,
)
    ensures { record { least = least.new; greatest = greatest.new }
        ≡ with_bound (record { least = least.old; greatest = greatest.old }) part.now bound }
{
    let (decision, is_upper, _) = part.step();
    if is_upper {
        set_bound(least, decision as usize, bound);
        return;
    }
    set_bound(greatest, decision as usize, bound);
}

fn is_same_bound(one: Option<Frac>, other: Option<Frac>) -> bool
    ensures { IsTrue result ↔ (one ≡ other) }
{
    match one {
        None => other.is_none(),
        Some(number) => match other {
            None => false,
            Some(another) => number == another,
        },
    }
}

fn are_same_bounds(one: &[Option<Frac>], other: &[Option<Frac>]) -> bool
    ensures { IsTrue result ↔ (one.now ≡ other.now) }
{
    if one.len() != other.len() {
        return false;
    }
    for (place, bound) in one.iter().enumerate() {
        if !is_same_bound(*bound, other[place]) {
            return false;
        }
    }
    true
}

/// Whether the boxes have the same bounds.
pub(crate) fn is_same_box(one: &BoundBox, other: &BoundBox) -> bool
    ensures { IsTrue result ↔ (one.now ≡ other.now) }
{
    are_same_bounds(one.least(), other.least()) && are_same_bounds(one.greatest(), other.greatest())
}
