// The names of the Solver: what is changed, what is to be least, and the two constraints.
ghost use Rattle.std.specs.Prelude.{◌≡◌, ◌<◌, ◌≤◌, ◌∷◌, [], OnOk, length, true};
ghost use Rattle.cell_refs.specs.declared.limits.TheConstants.{TEXT_BYTES};
ghost use Rattle.workbook.specs.Files.{is_name};
ghost use Rattle.made_up_books.specs.Putting.{HasRoomForNames, demand_names, objective_names, supply_names, with_named};

use crate::texts::{absolute_address, absolute_area};
use cell_refs::SheetId;
use memory::Memory;
use std::alloc::Global;
use workbook::{EditFault, Workbook};

/// Names the cells that are changed and the one that is to be least, and how many constraints there are.
pub(crate) fn name_objective(alloc: Global, book: &mut Workbook, size: u16) -> Result<(), Memory>
    requires listed { 0 < length book.old.sheets }
    requires room { HasRoomForNames 4 book.old }
    requires some { 1 ≤ size }
    requires few { size ≤ 12 }
    ensures { OnOk result (book.new ≡ with_named book.old (objective_names size)) }
{
    let sent = absolute_area(alloc, size, 0, 2 * size - 1, size - 1)?;
    let total = absolute_address(alloc, 2 * size + 2, 0)?;
    name(book, "solver_adj", &sent)?;
    name(book, "solver_opt", &total)?;
    name(book, "solver_typ", "2")?;
    name(book, "solver_num", "2")?;
    Ok(())
}

/// Names the first constraint: no supplier sends more than it has.
pub(crate) fn name_supplies(alloc: Global, book: &mut Workbook, size: u16) -> Result<(), Memory>
    requires listed { 0 < length book.old.sheets }
    requires room { HasRoomForNames 3 book.old }
    requires some { 1 ≤ size }
    requires few { size ≤ 12 }
    ensures { OnOk result (book.new ≡ with_named book.old (supply_names size)) }
{
    let sent = absolute_area(alloc, size, size, 2 * size - 1, size)?;
    let supplies = absolute_area(alloc, size, size + 1, 2 * size - 1, size + 1)?;
    name(book, "solver_lhs1", &sent)?;
    name(book, "solver_rel1", "1")?;
    name(book, "solver_rhs1", &supplies)?;
    Ok(())
}

/// Names the second constraint: each place gets no less than it wants.
pub(crate) fn name_demands(alloc: Global, book: &mut Workbook, size: u16) -> Result<(), Memory>
    requires listed { 0 < length book.old.sheets }
    requires room { HasRoomForNames 3 book.old }
    requires some { 1 ≤ size }
    requires few { size ≤ 12 }
    ensures { OnOk result (book.new ≡ with_named book.old (demand_names size)) }
{
    let got = absolute_area(alloc, 2 * size, 0, 2 * size, size - 1)?;
    let demands = absolute_area(alloc, 2 * size + 1, 0, 2 * size + 1, size - 1)?;
    name(book, "solver_lhs2", &got)?;
    name(book, "solver_rel2", "3")?;
    name(book, "solver_rhs2", &demands)?;
    Ok(())
}

// Gives a name of the first sheet a text.
fn name(book: &mut Workbook, name: &str, text: &str) -> Result<(), Memory>
    requires listed { 0 < length book.old.sheets }
    requires room { HasRoomForNames 1 book.old }
    requires good { is_name name.now ≡ true }
    requires short_name { length name.now ≤ TEXT_BYTES }
    requires short { length text.now ≤ TEXT_BYTES }
    ensures { OnOk result (book.new ≡ with_named book.old ((name.now, text.now) ∷ [])) }
{
    match book.name(Some(SheetId(0)), name, text) {
        Ok(_) => Ok(()),
        Err(EditFault::Memory) => Err(Memory),
        Err(_) => unreachable!(),
    }
}
