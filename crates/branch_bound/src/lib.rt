//! Branch and bound by units, each the opening of a node or a pivot, over any number of calls.
#![tactic(auto)]

mod answer;
mod frontier;
mod laws;
mod opening;
mod over;
mod progress;
mod run;
mod search;
mod settle;
mod wide;
mod work;

pub use frontier::{Ending, Found, Frontier, Visit, Way};
pub use laws::slices_are_one_run;
pub use progress::{Progress, SearchStop};
pub use search::Search;
