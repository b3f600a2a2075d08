ghost use Rattle.std.specs.Prelude.{◌≡◌, ◌≤◌, ℕ, Some, None, length};
ghost use Rattle.branch_bound.specs.States.{state_of};
ghost use Rattle.branch_bound.specs.Told.{IsTold};

use crate::frontier::{Found, Frontier, Way};
use crate::over::has_marks;
use crate::progress::Progress;
use crate::search::Room;
use frac128::Frac;
use lin_model::LinModel;

// The numbers in room that was made before.
fn numbers_in(from: &[Frac], room: Vec<Frac>) -> Vec<Frac>
    requires { length room.items ≡ length from.now }
    ensures { result.items ≡ from.now }
{
    let mut room = room;
    for place in 0..from.len() {
        room[place] = from[place];
    }
    room
}

// What a search that is over answers.
pub(crate) fn end_of_search(model: &LinModel, frontier: &Frontier, room: Room) -> Progress
    requires point { length room.point.items ≡ length model.now.whole }
    requires direction { length room.direction.items ≡ length model.now.whole }
    requires found { (f : Found) → frontier.now.found ≡ Some f
        → length f.point.items ≡ length model.now.whole }
    requires way { (w : Way) → frontier.now.way ≡ Some w
        → (length w.point.items ≡ length model.now.whole)
        × (length w.direction.items ≡ length model.now.whole) }
    ensures { IsTold model.now (state_of frontier.now None) result }
{
    match &frontier.found {
        Some(found) => match &frontier.way {
            Some(way) => Progress::Unbounded(
                numbers_in(&found.point, room.point),
                numbers_in(&way.direction, room.direction),
            ),
            None => Progress::Optimal(numbers_in(&found.point, room.point), found.value),
        },
        None => match &frontier.way {
            Some(way) => {
                if has_marks(model) {
                    return Progress::Infeasible;
                }
                Progress::Unbounded(
                    numbers_in(&way.point, room.point),
                    numbers_in(&way.direction, room.direction),
                )
            }
            None => Progress::Infeasible,
        },
    }
}
