// A search that is run with its whole budget.
ghost use Rattle.std.specs.Prelude.{◌≡◌, IfOk};
ghost use Rattle.branch_bound.specs.Ends.{IsAnswerOf};
ghost use Rattle.sheet_finding.specs.Finding.{RunsTo, fresh};
ghost use Rattle.sheet_solving.specs.Inner.{opened_of};
ghost use Rattle.sheet_solving.specs.Searches.{whole_task};

use branch_bound::{Progress, Search, SearchStop};
use node_pick::Picker;

/// Spends the whole budget of a search that has spent no unit, unless it ends or stops before.
pub fn run_whole(
    search: &mut Search,
    budget: u64,
    pick: &mut Box<dyn Picker>,
) -> Result<Progress, SearchStop>
    requires { search.old ≡ fresh search.old.model budget }
    ensures runs { RunsTo (whole_task (rule pick.old) budget) search.old.model
        (opened_of search.new) result }
    ensures answered { IfOk result (IsAnswerOf search.new) }
    ensures rule { rule pick.new ≡ rule pick.old }
{
    // (this call lends the proof that the model is valid)
    let _valid = search.model().whole();
    let run = search.run(budget, pick);
    // (this call lends the proof that units and state are those of a trail of the model)
    let _trail = search.units();
    run
}
