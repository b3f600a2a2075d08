// Which models have prices.
ghost use Rattle.std.specs.Prelude.{◌≡◌, ◌↔◌, ℕ, IsTrue, true};
ghost use Rattle.optimality.specs.Kinds.{goal_of};
ghost use Rattle.linear_models.specs.Model.{is_whole_at};
ghost use Rattle.model_prices.specs.Prices.{IsAim, IsContinuous};

use lin_model::{Goal, LinModel};

// Whether no decision is to be whole.
fn has_no_marks(marks: &[bool]) -> bool
    ensures { IsTrue result ↔ ((j : ℕ) → is_whole_at marks.now j ≡ true → ⊥) }
{
    for mark in marks {
        if *mark {
            return false;
        }
    }
    true
}

// Whether the objective is to be greatest or least.
fn is_aim(goal: Goal) -> bool
    ensures { IsTrue result ↔ IsAim (goal_of goal) }
{
    match goal {
        Goal::Max => true,
        Goal::Min => true,
        Goal::Reach(_) => false,
    }
}

/// Whether no decision of the model is to be whole, and its objective is to be greatest or least: `prices` requires it.
pub fn is_continuous(of: &LinModel) -> bool
    ensures { IsTrue result ↔ IsContinuous of.now }
{
    has_no_marks(of.whole()) && is_aim(of.goal())
}
