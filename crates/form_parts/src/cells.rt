// The cells to which formulas refer.
ghost use Rattle.std.specs.Prelude.{◌≡◌, IfOk, IfSome, Option, length, option_map};
ghost use Rattle.cell_refs.specs.declared.cell.Cell.{Cell};
ghost use Rattle.form_values.specs.declared.abs.Abs.{Abs};
ghost use Rattle.recalculation.specs.Looks.{elements};

use cell_refs::Cell;
use form_values::Abs;
use memory::Memory;
use std::alloc::Global;

/// The forms of cells, as far as they are known.
pub trait FormsOfCells {
    /// The form of each cell, where it is known.
    ghost forms: { Self → Cell → Option Abs };

    /// The form of a cell, if it is known.
    fn form(&self, alloc: Global, cell: Cell) -> Result<Option<Abs>, Memory>
        ensures { IfOk result (λ form. form ≡ forms self.now cell) };
}

/// The forms of these cells, where all are known.
pub fn forms_of<C: FormsOfCells>(
    alloc: Global,
    forms: &C,
    cells: &[Cell],
) -> Result<Option<Vec<Abs>>, Memory>
    ensures forms { IfOk result (λ found. option_map (λ items. items.items) found
        ≡ elements (C.forms forms.now) cells.now) }
    ensures count { IfOk result (λ found.
        IfSome found (λ items. length items.items ≡ length cells.now)) }
{
    let mut items = Vec::new(alloc);
    for cell in cells {
        let Some(form) = forms.form(alloc, *cell)? else {
            return Ok(None);
        };
        items.push(form)?;
    }
    Ok(Some(items))
}
