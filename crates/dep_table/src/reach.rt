// The cells of an area in their order.
ghost use Rattle.std.specs.Prelude.{◌≡◌, IfNone, IfSome, true};
ghost use Rattle.std.specs.declared.cmp.Ordering.TheVariants.{Less};
ghost use Rattle.cell_refs.specs.declared.cell.Cell.{Cell};
ghost use Rattle.cell_refs.specs.Areas.{within};
ghost use Rattle.cell_refs.specs.Cells.{cell_cmp};

use cell_refs::{Area, Cell};

/// The first cell of an area that doesn't come before another.
pub(crate) fn first_from(area: &Area, cell: Cell) -> Option<Cell>
    ensures none { IfNone result ((b : Cell) → within area.now b ≡ true → cell_cmp b cell ≡ Less) }
    ensures within { IfSome result (λ t. within area.now t ≡ true) }
    ensures first { IfSome result (λ t. (b : Cell) → within area.now b ≡ true
        → cell_cmp b t ≡ Less → cell_cmp b cell ≡ Less) }
{
    if cell.sheet.0 < area.sheet().0 {
        return Some(begin_of(area, area.top()));
    }
    if cell.sheet.0 > area.sheet().0 || cell.row > area.bottom() {
        return None;
    }
    if cell.row < area.top() {
        return Some(begin_of(area, area.top()));
    }
    if cell.col < area.left() {
        return Some(begin_of(area, cell.row));
    }
    if cell.col <= area.right() {
        return Some(cell);
    }
    if cell.row < area.bottom() {
        return Some(begin_of(area, cell.row + 1));
    }
    None
}

// Where a row of an area begins.
fn begin_of(area: &Area, row: u16) -> Cell
    ensures { result ≡ record { sheet = area.now.sheet; row = row; col = area.now.left } }
{
    Cell {
        sheet: area.sheet(),
        row,
        col: area.left(),
    }
}
