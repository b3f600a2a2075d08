// The formulas of a workbook.
ghost use Rattle.std.specs.Prelude.{◌≡◌, ◌≢◌, ◌<◌, ◌≤◌, Some, length, slice_get, ℕ};
ghost use Rattle.std.specs.declared.cmp.Ordering.TheVariants.{Less};
ghost use Rattle.cell_refs.specs.Cells.{cell_cmp};
ghost use Rattle.column_strips.specs.declared.formulas.Formula.{Formula};
ghost use Rattle.column_strips.specs.Formulas.{AreSorted};

use cell_refs::{Area, Cell};

/// A formula: its cell, and the areas to which it refers.
#[derive(Drop)]
pub struct Formula {
    pub cell: Cell,
    pub areas: Vec<Area>,
}

/// The first place from one on at which no formula before a cell stands. It is often near, so the steps begin small and double.
pub fn first_not_before(formulas: &[Formula], from: usize, cell: Cell) -> usize
    requires sorted { AreSorted formulas.now }
    requires within { from ≤ length formulas.now }
    ensures within { (from ≤ result) × (result ≤ length formulas.now) }
    ensures before { (k : ℕ) (f : Formula) → from ≤ k
        → k < result → slice_get formulas.now k ≡ Some f
        → cell_cmp f.cell cell ≡ Less }
    ensures first { (f : Formula) → slice_get formulas.now result ≡ Some f
        → cell_cmp f.cell cell ≢ Less }
{
    let mut low = from;
    let mut high = formulas.len();
    let mut width = 0;
    while low < high {
        let step = ((high - low) / 2).min(width);
        if formulas[low + step].cell.cmp(&cell).is_lt() {
            low += step + 1;
            width = 2 * step + 1;
        } else {
            high = low + step;
        }
    }
    low
}
