// An optimum, written and told.
ghost use Rattle.std.specs.Prelude.{◌≡◌, All, IfOk, OnErr, length};
ghost use Rattle.std.specs.Option.{option_map};
ghost use Rattle.commands.specs.Lines.{CanBeSaid};
ghost use Rattle.optimality.specs.Kinds.{goal_of};
ghost use Rattle.sheet_solving.specs.Inner.{CanBeTold, Tells, Writes, value_told};
ghost use Rattle.solver_names.specs.Answers.{statement_of};
ghost use Rattle.cell_refs.specs.Listed.{IsListed};
ghost use Rattle.write_back.specs.Writing.{AreDistinct};

use branch_bound::Progress;
use cell_refs::Cell;
use commands::Answer;
use frac128::Frac;
use lin_model::Goal;
use memory::Memory;
use solver_names::Statement;
use std::alloc::Global;
use workbook::Workbook;
use write_back::{PutFault, put};

/// The objective's number, where there is an objective, by that of the search, which seeks the greatest.
pub fn objective_value(objective: Option<Cell>, goal: Goal, value: Frac) -> Option<Frac>
    ensures { result ≡ option_map (λ _. value_told (goal_of goal) value) objective }
{
    match objective {
        None => None,
        Some(_) => Some(match goal {
            Goal::Max => value,
            Goal::Min => value.neg(),
            Goal::Reach(wanted) => wanted,
        }),
    }
}

// Writes the numbers of an optimum into the cells to be decided, and tells the objective's.
fn write(
    alloc: Global,
    book: &mut Workbook,
    statement: &Statement,
    point: &[Frac],
    value: Frac,
) -> Result<Answer, Memory>
    requires each { length point.now ≡ length statement.now.adj }
    requires listed { All (IsListed book.old.sheets) statement.now.adj }
    requires distinct { AreDistinct statement.now.adj }
    ensures written { IfOk result
        (λ s. Writes book.old (statement_of statement.now) point.now value s book.new) }
    ensures said { IfOk result (CanBeSaid book.old.sheets) }
    ensures sheets { book.new.sheets ≡ book.old.sheets }
    ensures memory { OnErr result (book.new ≡ book.old) }
{
    match put(alloc, book, &statement.adj, point) {
        Ok(()) => Ok(Answer::Optimal(objective_value(statement.objective, statement.goal, value))),
        Err(PutFault::NoRoom(cell)) => Ok(Answer::NoRoom(cell)),
        Err(PutFault::Memory) => Err(Memory),
    }
}

/// Tells the answer of a search, an optimum once it is written, or the units that were spent where it has none.
pub(crate) fn tell(
    alloc: Global,
    book: &mut Workbook,
    statement: &Statement,
    end: &Option<Progress>,
    units: u64,
) -> Result<Answer, Memory>
    requires can { CanBeTold (length statement.now.adj) end.now }
    requires listed { All (IsListed book.old.sheets) statement.now.adj }
    requires distinct { AreDistinct statement.now.adj }
    ensures tells { IfOk result
        (λ s. Tells book.old (statement_of statement.now) end.now units s book.new) }
    ensures said { IfOk result (CanBeSaid book.old.sheets) }
    ensures sheets { book.new.sheets ≡ book.old.sheets }
    ensures memory { OnErr result (book.new ≡ book.old) }
{
    match end {
        Some(Progress::Optimal(point, value)) => write(alloc, book, statement, point, *value),
        Some(Progress::Infeasible) => Ok(Answer::Infeasible),
        Some(Progress::Unbounded(_, _)) => Ok(Answer::Unbounded),
        Some(Progress::More) => unreachable!(),
        None => Ok(Answer::More(units)),
    }
}
