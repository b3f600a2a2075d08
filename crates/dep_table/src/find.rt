// Searches for the formulas to which a formula refers.
ghost use Rattle.std.specs.Prelude.{◌≡◌, ◌≢◌, ◌+◌, ◌*◌, ◌<◌, ◌≤◌, IfNone, IfSome, Some, false, length, slice_get, true, ℕ};
ghost use Rattle.std.specs.declared.cmp.Ordering.TheVariants.{Less};
ghost use Rattle.cell_refs.specs.Cells.{cell_cmp};
ghost use Rattle.column_strips.specs.declared.formulas.Formula.{Formula};
ghost use Rattle.dep_table.specs.Edges.{edge, most_slots, number, reaches, slot};
ghost use Rattle.dep_table.specs.Formulas.{AreSorted};

use crate::reach::first_from;
use cell_refs::Area;
use column_strips::{Formula, first_not_before};

/// How far the references of a formula have been followed: the area that is next, and the place from which on its cells are
/// sought.
#[derive(Clone, Copy, Debug)]
pub(crate) struct Cursor {
    pub(crate) area: usize,
    pub(crate) place: usize,
}

/// The next of the references of a formula, by its area and the place of the formula to which it leads.
pub(crate) fn next_reference(
    formulas: &[Formula],
    leaves: &[bool],
    node: usize,
    from: Cursor,
) -> Option<Cursor>
    requires sorted { AreSorted formulas.now }
    requires node { node < length formulas.now }
    requires leaves { length leaves.now ≡ length formulas.now }
    requires within { from.place ≤ length formulas.now }
    ensures none { IfNone result ((a j : ℕ) → number (length formulas.now) from
        ≤ a * length formulas.now + j
        → slot formulas.now leaves.now node a j ≡ false) }
    ensures slot { IfSome result (λ c. slot formulas.now leaves.now node c.area c.place ≡ true) }
    ensures place { IfSome result
        (λ c. (number (length formulas.now) from ≤ number (length formulas.now) c)
        × (c.place < length formulas.now)
        × (number (length formulas.now) c < most_slots formulas.now)) }
    ensures first { IfSome result (λ c. (a j : ℕ) → number (length formulas.now) from
        ≤ a * length formulas.now + j
        → a * length formulas.now + j < number (length formulas.now) c
        → slot formulas.now leaves.now node a j ≡ false) }
{
    if leaves[node] {
        return None;
    }
    let areas = formulas[node].areas.as_slice();
    let mut place = from.place;
    for area in from.area..areas.len() {
        if let Some(found) = first_within(formulas, &areas[area], place) {
            return Some(Cursor { area, place: found });
        }
        place = 0;
    }
    None
}

// The first formula from a place on that an area has.
fn first_within(formulas: &[Formula], area: &Area, from: usize) -> Option<usize>
    requires { AreSorted formulas.now }
    ensures none { IfNone result ((k : ℕ) → from ≤ k
        → reaches area.now (slice_get formulas.now k) ≡ false) }
    ensures reached { IfSome result (λ j. reaches area.now (slice_get formulas.now j) ≡ true) }
    ensures place { IfSome result (λ j. (from ≤ j) × (j < length formulas.now)) }
    ensures first { IfSome result (λ j. (k : ℕ) → from ≤ k → k < j
        → reaches area.now (slice_get formulas.now k) ≡ false) }
{
    let mut place = from;
    while place < formulas.len() {
        let cell = formulas[place].cell;
        if area.has(cell) {
            return Some(place);
        }
        let Some(target) = first_from(area, cell) else {
            return None;
        };
        place = first_not_before(formulas, place + 1, target);
    }
    None
}
