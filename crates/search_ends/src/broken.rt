ghost use Rattle.std.specs.Prelude.{◌≡◌, ◌<◌, ℕ, length, MatchOption};
ghost use Rattle.searches.specs.Trails.{IsBroken, IsFirstBroken};

use frac128::Frac;
use lin_model::LinModel;

/// The decision of least number that is to be whole and isn't.
pub(crate) fn first_broken(model: &LinModel, point: &[Frac]) -> Option<usize>
    requires { length point.now ≡ length model.now.whole }
    ensures { MatchOption result ((j : ℕ) → ¬ (IsBroken model.now point.now j))
        (λ j. IsFirstBroken model.now point.now j × j < length point.now) }
{
    let marks = model.whole();
    for decision in 0..marks.len() {
        if marks[decision] && !point[decision].is_whole() {
            return Some(decision);
        }
    }
    None
}
