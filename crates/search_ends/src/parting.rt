ghost use Rattle.std.specs.Prelude.{◌≡◌, ◌<◌, ◌↔◌, ℕ, ℤ, IsTrue, List, Some, length};
ghost use Rattle.fractions.specs.Rational.{ℚ};
ghost use Rattle.fractions.specs.Vectors.{at};
ghost use Rattle.frac128.specs.Narrow.{IsNarrow};
ghost use Rattle.linear_models.specs.Box.{InBox, bound_at};
ghost use Rattle.optimality.specs.Optimal.{IsWhole};
ghost use Rattle.searches.specs.Alike.{BoundsDiffer, FloorIs, HasTwoBounds};
ghost use Rattle.searches.specs.Trees.{split};
ghost use Rattle.search_ends.specs.Ends.{HasNarrowParts, end_at};
ghost use Rattle.search_ends.specs.Pairs.{IsParting};

use crate::ends::NodeEnd;
use frac128::Frac;
use lin_model::BoundBox;

// A bound that is there.
fn bound_there(bounds: &[Option<Frac>], decision: u16) -> Frac
    requires within { decision < length bounds.now }
    requires there { (b : ℚ) × (bound_at bounds.now decision ≡ Some b) }
    ensures is { bound_at bounds.now decision ≡ Some result }
    ensures narrow { IsNarrow result }
{
    match bounds[decision as usize] {
        None => unreachable!(),
        Some(bound) => {
            let _num = bound.num();
            bound
        }
    }
}

// Whether two numbers are one.
fn is_same(one: Frac, other: Frac) -> bool
    ensures { IsTrue result ↔ (one ≡ other) }
{
    one == other
}

// Whether the decision's two bounds are different ones.
fn bounds_differ(within: &BoundBox, decision: u16) -> bool
    requires least { decision < length within.now.least }
    requires greatest { decision < length within.now.greatest }
    requires bounds { HasTwoBounds within.now decision }
    ensures { IsTrue result ↔ BoundsDiffer within.now decision }
{
    let least = bound_there(within.least(), decision);
    let greatest = bound_there(within.greatest(), decision);
    !is_same(least, greatest)
}

// The split at a decision whose number is whole: below the number, and where that is the least value above it.
fn split_beside(within: &BoundBox, decision: u16, point: &[Frac], value: Frac) -> NodeEnd
    requires point { decision < length point.now }
    requires least { decision < length within.now.least }
    requires greatest { decision < length within.now.greatest }
    requires whole { IsWhole (at point.now decision) }
    requires in_box { InBox within.now point.now }
    requires bounds { HasTwoBounds within.now decision }
    requires differ { BoundsDiffer within.now decision }
    ensures split { (f : ℤ) × FloorIs within.now decision (at point.now decision) f
        × ((there way : List ℚ) → end_at result there way ≡ split decision f value) }
    ensures narrow { HasNarrowParts result }
{
    let number = point[decision as usize];
    let _num = number.num();
    let floor = number.floor();
    let least = bound_there(within.least(), decision);
    let _greatest = bound_there(within.greatest(), decision);
    if least.is_below(number) {
        return NodeEnd::Split(decision, floor - 1, value);
    }
    NodeEnd::Split(decision, floor, value)
}

/// What becomes of a node at whose point all decisions that are to be whole are so, but these two of a group hold the same
/// number, the first ones: the split at one of them whose bounds differ, and else a clash.
pub(crate) fn part(within: &BoundBox, one: u16, other: u16, point: &[Frac], value: Frac) -> NodeEnd
    requires point { (one < length point.now) × (other < length point.now) }
    requires least { length within.now.least ≡ length point.now }
    requires greatest { length within.now.greatest ≡ length point.now }
    requires whole { IsWhole (at point.now one) × IsWhole (at point.now other) }
    requires in_box { InBox within.now point.now }
    requires bounds { HasTwoBounds within.now one × HasTwoBounds within.now other }
    ensures parting { (there way : List ℚ)
        → IsParting within.now point.now value one other (end_at result there way) }
    ensures narrow { HasNarrowParts result }
{
    if bounds_differ(within, one) {
        return split_beside(within, one, point, value);
    }
    if bounds_differ(within, other) {
        return split_beside(within, other, point, value);
    }
    NodeEnd::Clash(one, other, value)
}
