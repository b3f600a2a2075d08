// The cells that are to be different, constraint by constraint.
ghost use Rattle.std.specs.Prelude.{◌≡◌, ◌++◌, [], ◌∷◌, IfOk, OnOk};
ghost use Rattle.cell_refs.specs.Areas.{cells_of};
ghost use Rattle.solver_names.specs.Answers.{groups_of};
ghost use Rattle.solver_names.specs.Constraints as said;
ghost use Rattle.solver_names.specs.Stated as told;
ghost use Rattle.solver_names.specs.declared.constraints.Code.TheVariants.{Different};

use crate::constraints::{Code, Constraint};
use crate::said::Said;
use cell_refs::{Area, Cell};
use memory::Memory;
use std::alloc::Global;
use workbook::Adj;

// Whether the code asks for different cells.
fn is_different(code: &Said<Code>) -> bool
    ensures { result ≡ told.is_code Different code.now }
{
    matches!(code, Said::Says(Code::Different))
}

// Puts the number of a cell last, where it is to be decided.
fn put_number(numbers: &mut Vec<u16>, decisions: &Adj, cell: Cell) -> Result<(), Memory>
    ensures { OnOk result (numbers.new.items
        ≡ numbers.old.items ++ told.numbers_of decisions.now (cell ∷ [])) }
{
    if let Some(number) = decisions.find(cell) {
        numbers.push(number)?;
    }
    Ok(())
}

// The numbers of the cells of an area.
fn numbers_of(alloc: Global, decisions: &Adj, area: Area) -> Result<Vec<u16>, Memory>
    ensures { IfOk result (λ v. v.items ≡ told.numbers_of decisions.now (cells_of area)) }
{
    let mut numbers = Vec::new(alloc);
    for place in 0..area.len() {
        put_number(&mut numbers, decisions, area.at(place))?;
    }
    Ok(numbers)
}

// The numbers of the cells on the left of a constraint.
fn left_numbers(alloc: Global, decisions: &Adj, left: &Said<Area>) -> Result<Vec<u16>, Memory>
    ensures { IfOk result (λ v. v.items
        ≡ told.numbers_of decisions.now (said.left_cells left.now)) }
{
    match left {
        Said::Says(area) => numbers_of(alloc, decisions, *area),
        _ => Ok(Vec::new(alloc)),
    }
}

// Puts the numbers of a constraint's cells last, where they are to be different.
fn put_group(
    alloc: Global,
    groups: &mut Vec<Vec<u16>>,
    decisions: &Adj,
    constraint: &Constraint,
) -> Result<(), Memory>
    ensures { OnOk result (groups_of groups.new.items
        ≡ groups_of groups.old.items ++ told.different (constraint.now ∷ []) decisions.now) }
{
    if is_different(&constraint.code) {
        groups.push(left_numbers(alloc, decisions, &constraint.left)?)?;
    }
    Ok(())
}

/// For each constraint whose cells are to be different, the numbers of its cells.
pub(crate) fn all_groups(
    alloc: Global,
    decisions: &Adj,
    constraints: &[Constraint],
) -> Result<Vec<Vec<u16>>, Memory>
    ensures { IfOk result (λ v. groups_of v.items ≡ told.different constraints.now decisions.now) }
{
    let mut groups = Vec::new(alloc);
    for constraint in constraints {
        put_group(alloc, &mut groups, decisions, constraint)?;
    }
    Ok(groups)
}
