// The formulas to which references lead from one.
ghost use Rattle.std.specs.Prelude.{◌≡◌, ◌+◌, ◌++◌, ◌∷◌, ◌<◌, ◌≤◌, [], IfOk, MatchBool, OnOk, false, length, slice_index_or, slice_set, true, vec_len, ℕ};
ghost use Rattle.dep_table.specs.Edges.{edge};
ghost use Rattle.dep_table.specs.Formulas.{AreSorted};
ghost use Rattle.dep_table.specs.Spreading.{IsClosed, IsSpreading, left_to_reach};

use crate::find::{Cursor, next_reference};
use column_strips::Formula;
use sheet_model::Memory;
use std::alloc::Global;

/// For each formula, whether references lead to it from the one at a place, which has a flag too.
pub(crate) fn reached_from(
    alloc: Global,
    formulas: &[Formula],
    leaves: &[bool],
    root: usize,
) -> Result<Vec<bool>, Memory>
    requires sorted { AreSorted formulas.now }
    requires leaves { length leaves.now ≡ length formulas.now }
    requires root { root < length formulas.now }
    ensures length { IfOk result (λ flags. length flags.items ≡ length formulas.now) }
    ensures root { IfOk result (λ flags. slice_index_or flags.items root false ≡ true) }
    ensures closed { IfOk result (λ flags. IsClosed (edge formulas.now leaves.now) flags.items) }
{
    let mut flags = vec![in alloc; false; formulas.len()]?;
    let mut reached = Vec::new(alloc);
    reach(root, &mut flags, &mut reached)?;
    spread(formulas, leaves, root, &mut flags, &mut reached)?;
    Ok(flags)
}

// Follows the references of each formula of the list in turn, which grows.
fn spread(
    formulas: &[Formula],
    leaves: &[bool],
    root: usize,
    flags: &mut [bool],
    reached: &mut Vec<usize>,
) -> Result<(), Memory>
    requires sorted { AreSorted formulas.now }
    requires leaves { length leaves.now ≡ length formulas.now }
    requires root { slice_index_or flags.old root false ≡ true }
    requires spreads { IsSpreading (length formulas.now)
        (edge formulas.now leaves.now) flags.old reached.old.items 0 }
    ensures root { OnOk result (slice_index_or flags.new root false ≡ true) }
    ensures closed { OnOk result (IsClosed (edge formulas.now leaves.now) flags.new) }
{
    let mut next = 0;
    while next < reached.len() {
        follow(formulas, leaves, next, flags, reached)?;
        next += 1;
    }
    Ok(())
}

// Reaches the formulas to which the one at a place of the list refers.
fn follow(
    formulas: &[Formula],
    leaves: &[bool],
    next: usize,
    flags: &mut [bool],
    reached: &mut Vec<usize>,
) -> Result<(), Memory>
    requires sorted { AreSorted formulas.now }
    requires leaves { length leaves.now ≡ length formulas.now }
    requires next { next < vec_len reached.old }
    requires spreads { IsSpreading (length formulas.now)
        (edge formulas.now leaves.now) flags.old reached.old.items next }
    ensures spreads { OnOk result (IsSpreading (length formulas.now)
        (edge formulas.now leaves.now) flags.new reached.new.items (next + 1)) }
    ensures kept { OnOk result ((k : ℕ) → slice_index_or flags.old k false ≡ true
        → slice_index_or flags.new k false ≡ true) }
    ensures less { OnOk result (left_to_reach flags.new reached.new.items
        ≤ left_to_reach flags.old reached.old.items) }
{
    let node = reached[next];
    let mut from = Cursor { area: 0, place: 0 };
    while let Some(found) = next_reference(formulas, leaves, node, from) {
        reach(found.place, flags, reached)?;
        from = Cursor {
            area: found.area,
            place: found.place + 1,
        };
    }
    Ok(())
}

// Flags a formula, and puts it at the end of the list, where it had no flag.
fn reach(place: usize, flags: &mut [bool], reached: &mut Vec<usize>) -> Result<(), Memory>
    requires { place < length flags.old }
    ensures { OnOk result (MatchBool (slice_index_or flags.old place false)
        ((flags.new ≡ flags.old) × (reached.new.items ≡ reached.old.items))
        ((flags.new ≡ slice_set flags.old place true)
        × (reached.new.items ≡ reached.old.items ++ place ∷ []))) }
{
    if flags[place] {
        return Ok(());
    }
    reached.push(place)?;
    flags[place] = true;
    Ok(())
}
