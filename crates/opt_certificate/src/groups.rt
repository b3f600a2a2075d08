// Groups of decisions that hold different numbers.
ghost use Rattle.std.specs.Prelude.{◌≡◌, ◌↔◌, ◌<◌, ℕ, All, IsTrue, length, slice_index};
ghost use Rattle.fractions.specs.Vectors.{at};
ghost use Rattle.lin_model.specs.Lists.{lists_of};
ghost use Rattle.optimality.specs.Groups.{AreDifferent, held_at};

use frac128::Frac;

// The decision's number, 0 past the end.
fn number_of(point: &[Frac], decision: u16) -> Frac
    ensures { result ≡ at point.now decision }
{
    let place = decision as usize;
    if place < point.len() {
        point[place]
    } else {
        Frac::zero()
    }
}

// Whether a decision of the list holds the number.
fn holds(list: &[u16], point: &[Frac], number: Frac) -> bool
    ensures { IsTrue result
        ↔ ((k : ℕ) × (k < length list.now) × (held_at point.now list.now k ≡ number)) }
{
    for decision in list {
        if number_of(point, *decision) == number {
            return true;
        }
    }
    false
}

// Whether no two decisions of the group hold the same number.
fn is_different(group: &[u16], point: &[Frac]) -> bool
    ensures { IsTrue result ↔ AreDifferent point.now group.now }
{
    for (place, decision) in group.iter().enumerate() {
        let number = number_of(point, *decision);
        if holds(&group[place + 1..], point, number) {
            return false;
        }
    }
    true
}

/// Whether no two decisions of any group do.
pub(crate) fn are_different(groups: &[Vec<u16>], point: &[Frac]) -> bool
    ensures { IsTrue result ↔ All (AreDifferent point.now) (lists_of groups.now) }
{
    for group in groups {
        if !is_different(group, point) {
            return false;
        }
    }
    true
}
