ghost use Rattle.std.specs.Prelude.{◌≡◌, ◌≤◌, ◌<◌, ◌+◌, ℕ, IfErr, List, true, false};
ghost use Rattle.search_bounds.specs.Choices.{IsBounded};
ghost use Rattle.search_bounds.specs.Enough.{enough_for};
ghost use Rattle.branch_bound.specs.Searches.{IsContinued};
ghost use Rattle.branch_bound.specs.Ends.{EndsAs, HasBudgetLeft, HearsUntil};

use crate::progress::{Progress, SearchStop};
use crate::search::Search;
use node_pick::Picker;

impl Search {
    /// Spends at most so many units, each the opening of the node that the picker chooses, or the next pivot of the node
    /// that is worked on. Where the search has ended, its answer is given, which takes no memory; after that it is not run
    /// again. With `Memory` and with a pivot that is not narrow the search stands as before that unit. The picker is asked
    /// before each opening, is told what was opened, and how each node ends. Where each decision that is to be whole has two bounds,
    /// a budget that is enough for the model is never spent.
    pub fn run(&mut self, units: u64, pick: &mut Box<dyn Picker>) -> Result<Progress, SearchStop>
        requires { self.old.answered ≡ false }
        ensures trail { IsContinued (rule pick.old) (HearsUntil (heard pick.old)
            (heard pick.new) self.new.state result) units self.old self.new }
        ensures ends { EndsAs self.old.units units self.new result }
        ensures enough { IsBounded self.old.model → enough_for self.old.model ≤ self.old.budget
            → IfErr result HasBudgetLeft }
        ensures few { IsBounded self.old.model → self.new.units < enough_for self.old.model }
        ensures rule { rule pick.new ≡ rule pick.old }
    {
        let _valid = self.model().whole();
        let mut spent = 0;
        while spent < units && !self.has_ended() && self.units() < self.budget() {
            match self.step(pick) {
                Ok(()) => spent += 1,
                Err(stop) => return Err(self.stop_of(stop)),
            }
        }
        let _trail = self.units();
        if self.has_ended() {
            return Ok(self.answer());
        }
        if self.budget() <= self.units() {
            return Err(SearchStop::Budget(self.units()));
        }
        Ok(Progress::More)
    }
}
