// What is asked of a sheet before its rows are priced.
ghost use Rattle.std.specs.Prelude.{◌≡◌, ◌↔◌, IsTrue, length};
ghost use Rattle.optimality.specs.Kinds.{goal_of};
ghost use Rattle.model_prices.specs.Prices.{IsAim};
ghost use Rattle.sheet_prices.specs.Answers.{HasAim};
ghost use Rattle.sheet_prices.specs.Inner.{IsFirst};
ghost use Rattle.solver_names.specs.Answers.{statement_of};

use cell_refs::Cell;
use lin_model::Goal;
use solver_names::Statement;

// Whether the goal is the greatest or the least.
fn is_aim(goal: Goal) -> bool
    ensures { IsTrue result ↔ IsAim (goal_of goal) }
{
    match goal {
        Goal::Max => true,
        Goal::Min => true,
        Goal::Reach(_) => false,
    }
}

/// Whether there is an objective, and it is to be greatest or least.
pub(crate) fn has_aim(of: &Statement) -> bool
    ensures { IsTrue result ↔ HasAim (statement_of of.now) }
{
    match of.objective {
        Some(_) => is_aim(of.goal),
        None => false,
    }
}

/// The first of the cells to be decided that is to be whole.
pub(crate) fn first_whole(decisions: &[Cell], marks: &[bool]) -> Option<Cell>
    requires { length decisions.now ≡ length marks.now }
    ensures { IsFirst decisions.now marks.now result }
{
    for (place, mark) in marks.iter().enumerate() {
        if *mark {
            return Some(decisions[place]);
        }
    }
    None
}
