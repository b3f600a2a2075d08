//! Workbooks that are made up, of a size that is given.
//! The main call is `made_up`. For a size from 1 to 12 it makes one sheet `gen`, on which so many suppliers send goods to as many places,
//! and the names of Excel's Solver that ask for the least cost. `first_numbers` and `first_names` are examples.
//! Below it stands `workbook`, whose `open`, `set` and `name` it calls. Above it stands `opensolver_cli`, which solves such a workbook.
//! It is a transportation problem, a standard one of linear programming. The draws are those of the example of `rand` in the C standard,
//! from seed 1; what is made of them is the program's own.
#![tactic(auto)]

mod cells;
mod draws;
mod examples;
mod names;
mod texts;

ghost use Rattle.std.specs.Prelude.{◌≡◌, ◌≤◌, ◌∷◌, [], IfOk};
ghost use Rattle.std.specs.FinMap.{empty};
ghost use Rattle.made_up_books.specs.MadeUp.{made_up, sheet_name};

use cells::put_cells;
use draws::Drawn;
pub use examples::{first_names, first_numbers};
use memory::Memory;
use names::{name_demands, name_objective, name_supplies};
use std::alloc::Global;
use workbook::{File, OpenFault, Workbook};

/// The workbook of a size from 1 to 12: a sheet `gen` with so many suppliers and as many places, costs and demands that are drawn, and
/// the names of the Solver for the least cost.
pub fn made_up(alloc: Global, size: u8) -> Result<Workbook, Memory>
    requires some { 1 ≤ size }
    requires few { size ≤ 12 }
    ensures { IfOk result (λ book. book ≡ made_up size) }
{
    let size = u16::from(size);
    let drawn = Drawn::new(alloc, size)?;
    let mut book = blank(alloc)?;
    put_cells(alloc, &mut book, size, &drawn)?;
    name_objective(alloc, &mut book, size)?;
    name_supplies(alloc, &mut book, size)?;
    name_demands(alloc, &mut book, size)?;
    Ok(book)
}

// The workbook of the sheet `gen`, without texts and names.
fn blank(alloc: Global) -> Result<Workbook, Memory>
    ensures { IfOk result (λ book. book
        ≡ record { sheets = sheet_name ∷ []; contents = empty; names = [] }) }
{
    let mut files = Vec::new(alloc);
    files.push(File::new(String::from_str(alloc, "gen")?, Vec::new(alloc)))?;
    match Workbook::open(alloc, &files, b"") {
        Ok(book) => Ok(book),
        Err(OpenFault::Memory) => Err(Memory),
        Err(_) => unreachable!(),
    }
}
