// The cells of decisions as they are printed.
ghost use Rattle.std.specs.Prelude.{◌≡◌, ◌<◌, ◌++◌, All, OnOk, length, string_bytes};
ghost use Rattle.model_lines.specs.Cells.{cell_with_sheet};
ghost use Rattle.model_lines.specs.Lines.{decision_text};
ghost use Rattle.cell_refs.specs.Listed.{IsListed};

use cell_refs::{Cell, SheetNames, print_cell};
use memory::Memory;

/// Appends a cell with its sheet.
#[tactic(auto, using(crate::proofs::Cells::cell_said))]
pub(crate) fn print_listed(cell: &Cell, sheets: &SheetNames, to: &mut String) -> Result<(), Memory>
    requires { IsListed sheets.now cell.now }
    ensures { OnOk result (string_bytes to.new
        ≡ string_bytes to.old ++ cell_with_sheet sheets.now cell.now) }
{
    print_cell(cell, sheets, to)
}

/// Appends the cell of a decision.
#[tactic(auto, using(crate::proofs::Cells::decision_is))]
pub(crate) fn print_decision(
    decision: u16,
    cells: &[Cell],
    sheets: &SheetNames,
    to: &mut String,
) -> Result<(), Memory>
    requires listed { All (IsListed sheets.now) cells.now }
    requires within { decision < length cells.now }
    ensures { OnOk result (string_bytes to.new
        ≡ string_bytes to.old ++ decision_text sheets.now cells.now decision) }
{
    print_listed(&cells[decision as usize], sheets, to)
}
