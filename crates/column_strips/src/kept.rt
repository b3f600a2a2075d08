// Formulas that are kept with their strips.
ghost use Rattle.std.specs.Prelude.{◌≡◌, ◌≢◌, ◌<◌, ◌≤◌, IfNone, IfSome, None, Some, length, slice_get, vec_capacity, vec_len, ℕ};
ghost use Rattle.std.specs.FinMap as map;
ghost use Rattle.cell_refs.specs.Areas.{Area};
ghost use Rattle.cell_refs.specs.declared.limits.TheConstants.{TEXTS};
ghost use Rattle.column_strips.specs.declared.formulas.Formula.{Formula};
ghost use Rattle.column_strips.specs.Columns.{HasRoom, room_at};
ghost use Rattle.column_strips.specs.Formulas.{AreSorted, references_in};
ghost use Rattle.column_strips.specs.Kept.{AreKept};

use crate::columns::{add_areas, drop_areas};
use crate::formulas::{Formula, first_not_before};
use crate::strip::Strip;
use cell_refs::{Area, Cell};

/// The place of the formula of a cell.
pub(crate) fn place_of_formula(formulas: &[Formula], cell: Cell) -> Option<usize>
    requires { AreSorted formulas.now }
    ensures none { IfNone result ((i : ℕ) (f : Formula) → slice_get formulas.now i
        ≡ Some f → f.cell ≢ cell) }
    ensures some { IfSome result (λ i. (f : Formula) × (slice_get formulas.now i ≡ Some f)
        × (f.cell ≡ cell)) }
{
    let place = first_not_before(formulas, 0, cell);
    if place >= formulas.len() {
        return None;
    }
    if formulas[place].cell.cmp(&cell).is_eq() {
        return Some(place);
    }
    None
}

/// Takes the formula of a cell away with its strips, where the cell has one.
pub(crate) fn take_formula(formulas: &mut Vec<Formula>, columns: &mut [Vec<Strip>], cell: Cell)
    requires { AreKept formulas.old.items columns.old }
    ensures kept { AreKept formulas.new.items columns.new }
    ensures taken { references_in formulas.new.items
        ≡ map.remove (references_in formulas.old.items) cell }
    ensures room { (i : ℕ) → room_at columns.old i ≤ room_at columns.new i }
    ensures len { vec_len formulas.new ≤ vec_len formulas.old }
    ensures capacity { vec_capacity formulas.new ≡ vec_capacity formulas.old }
{
    let Some(place) = place_of_formula(formulas, cell) else {
        return;
    };
    let formula = formulas.remove(place);
    drop_areas(columns, formula.cell, &formula.areas);
}

/// Puts the formula of a cell that has none, with its strips. There is room for all.
pub(crate) fn put_formula(formulas: &mut Vec<Formula>, columns: &mut [Vec<Strip>], formula: Formula)
    requires kept { AreKept formulas.old.items columns.old }
    requires absent { map.get (references_in formulas.old.items) formula.cell ≡ None }
    requires few { map.len (references_in formulas.old.items) < TEXTS }
    requires room { vec_len formulas.old < vec_capacity formulas.old }
    requires rooms { (k : ℕ) (area : Area) → slice_get formula.areas.items k ≡ Some area
        → HasRoom (length formula.areas.items) area columns.old }
    ensures kept { AreKept formulas.new.items columns.new }
    ensures put { references_in formulas.new.items
        ≡ map.insert (references_in formulas.old.items) formula.cell formula.areas.items }
{
    add_areas(columns, formula.cell, &formula.areas);
    let place = first_not_before(formulas, 0, formula.cell);
    let _ = formulas.insert(place, formula);
}
