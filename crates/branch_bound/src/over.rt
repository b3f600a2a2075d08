ghost use Rattle.std.specs.Prelude.{◌≡◌, ◌↔◌, IsTrue, None};
ghost use Rattle.fractions.specs.Rational.{zero_ℚ};
ghost use Rattle.affine_forms.specs.Forms.{constant_form};
ghost use Rattle.searches.specs.Trails as trails;
ghost use Rattle.branch_bound.specs.States.{state_of};

use crate::frontier::Frontier;
use affine_forms::Form;
use frac128::Frac;
use lin_model::{Goal, LinModel};

// Whether some decision is to be whole.
pub(crate) fn has_marks(model: &LinModel) -> bool
    ensures { IsTrue result ↔ ¬ (trails.HasNoMarks model.now) }
{
    let marks = model.whole();
    for decision in 0..marks.len() {
        if marks[decision] {
            return true;
        }
    }
    false
}

// Whether the form is 0 everywhere.
fn is_zero(form: &Form) -> bool
    ensures { IsTrue result ↔ (form.now ≡ constant_form zero_ℚ) }
{
    form.terms().is_empty() && form.base().is_zero()
}

// Whether what is to be as great as can be is 0 everywhere.
fn has_no_objective(model: &LinModel) -> bool
    ensures { IsTrue result ↔ trails.HasNoObjective model.now }
{
    match model.goal() {
        Goal::Max => is_zero(model.objective()),
        Goal::Min => is_zero(model.objective()),
        Goal::Reach(_) => true,
    }
}

// Whether the search is over, where no node is worked on.
pub(crate) fn is_over(model: &LinModel, frontier: &Frontier) -> bool
    ensures { IsTrue result ↔ trails.IsOver model.now (state_of frontier.now None) }
{
    if frontier.waiting.is_empty() {
        return true;
    }
    if frontier.found.is_some() {
        return frontier.way.is_some() || has_no_objective(model);
    }
    frontier.way.is_some() && !has_marks(model)
}
