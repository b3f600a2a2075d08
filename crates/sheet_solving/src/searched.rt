// Units of a search.
ghost use Rattle.std.specs.Prelude.{◌≡◌, ◌<◌, ◌≤◌, IfErr, IfOk, OnErr, None, false};
ghost use Rattle.search_bounds.specs.Choices.{IsBounded};
ghost use Rattle.search_bounds.specs.Enough.{enough_for};
ghost use Rattle.branch_bound.specs.Ends.{HasBudgetLeft};
ghost use Rattle.sheet_solving.specs.Inner.{IsKept, Runs, answer_in, opened_of};
ghost use Rattle.sheet_solving.specs.Searches.{task_from};

use branch_bound::{Progress, Search, SearchStop};
use node_pick::Picker;

/// How many units are asked for, and how many a search may spend in all.
#[derive(Clone, Copy, Debug, PartialEq, Eq)]
pub struct Allowed {
    pub units: u64,
    pub budget: u64,
}

// The answer, where there is one.
fn answer_in(progress: Progress) -> Option<Progress>
    ensures { result ≡ answer_in progress }
{
    match progress {
        Progress::More => None,
        Progress::Optimal(point, value) => Some(Progress::Optimal(point, value)),
        Progress::Infeasible => Some(Progress::Infeasible),
        Progress::Unbounded(point, direction) => Some(Progress::Unbounded(point, direction)),
    }
}

// Spends units of a search that hasn't ended, and gives its answer where it ends.
fn go_on(
    search: &mut Search,
    allowed: Allowed,
    pick: &mut Box<dyn Picker>,
) -> Result<Option<Progress>, SearchStop>
    requires budget { allowed.budget ≤ 1000000 }
    requires unanswered { search.old.answered ≡ false }
    ensures kept { IfOk result (IsKept search.new) }
    ensures unanswered { OnErr result (search.new.answered ≡ false) }
    ensures runs { Runs (task_from (rule pick.old) (opened_of search.old)
        allowed.units allowed.budget) search.old.model (opened_of search.new) result }
    ensures enough { IsBounded search.old.model → enough_for search.old.model ≤ allowed.budget
        → IfErr result HasBudgetLeft }
    ensures few { IsBounded search.old.model → search.new.units < enough_for search.old.model }
    ensures rule { rule pick.new ≡ rule pick.old }
{
    search.set_budget(allowed.budget);
    // (this call lends the proof that the model is valid)
    let _valid = search.model().whole();
    let run = search.run(allowed.units, pick);
    // (this call lends the proof that units and state are those of a trail of the model)
    let _trail = search.units();
    match run {
        Ok(progress) => Ok(answer_in(progress)),
        Err(stop) => Err(stop),
    }
}

/// Spends units of a search, unless it has ended, and gives the answer that is kept of it then.
pub(crate) fn spend(
    search: &mut Search,
    end: Option<Progress>,
    allowed: Allowed,
    pick: &mut Box<dyn Picker>,
) -> Result<Option<Progress>, SearchStop>
    requires budget { allowed.budget ≤ 1000000 }
    requires kept { IsKept search.old end }
    ensures kept { IfOk result (IsKept search.new) }
    ensures unanswered { OnErr result (search.new.answered ≡ false) }
    ensures runs { Runs (task_from (rule pick.old) (opened_of search.old)
        allowed.units allowed.budget) search.old.model (opened_of search.new) result }
    ensures enough { IsBounded search.old.model → enough_for search.old.model ≤ allowed.budget
        → IfErr result HasBudgetLeft }
    ensures few { IsBounded search.old.model → search.new.units < enough_for search.old.model }
    ensures rule { rule pick.new ≡ rule pick.old }
{
    // (this call lends the proof that the model is valid)
    let _valid = search.model().whole();
    // (this call lends the proof that units and state are those of a trail of the model)
    let _trail = search.units();
    match end {
        Some(answer) => Ok(Some(answer)),
        None => go_on(search, allowed, pick),
    }
}
