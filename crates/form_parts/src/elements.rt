// Values as single ones, and as grids.
ghost use Rattle.std.specs.Prelude.{◌≡◌, IfOk};
ghost use Rattle.form_table.specs.Wanted.{grid_of, single};

use form_values::{AbsArg, AbsGrid};
use memory::Memory;
use std::alloc::Global;

/// An equal value, a single one where it has one element.
pub fn single_of(alloc: Global, value: &AbsArg) -> Result<AbsArg, Memory>
    ensures { IfOk result (λ one. one ≡ single value.now) }
{
    match value {
        AbsArg::One(value) => Ok(AbsArg::One(value.copy(alloc)?)),
        AbsArg::Area(grid) => match grid.items() {
            [value] => Ok(AbsArg::One(value.copy(alloc)?)),
            _ => Ok(AbsArg::Area(grid.copy(alloc)?)),
        },
    }
}

/// A grid of equal values, of a single value a grid of one element.
pub fn grid_of(alloc: Global, value: &AbsArg) -> Result<AbsGrid, Memory>
    ensures { IfOk result (λ grid. grid ≡ grid_of value.now) }
{
    match value {
        AbsArg::One(value) => {
            let mut items = Vec::new(alloc);
            items.push(value.copy(alloc)?)?;
            match AbsGrid::new(1, 1, items) {
                Some(grid) => Ok(grid),
                None => unreachable!(),
            }
        }
        AbsArg::Area(grid) => grid.copy(alloc),
    }
}
