//! The functions of formulas, each by its row in the table of functions.
#![tactic(auto)]

mod answers;
mod criteria;
mod criterion;
mod given;
mod indexing;
mod information;
mod items;
mod logic;
mod lookups;
mod pick;
mod products;
mod rounding;
mod search;
mod steps;
mod sums;
mod table;
mod table_view;
mod tally;

pub use criteria::{countif, sumif};
pub use criterion::meets;
pub use given::value_or_error;
pub use indexing::{index, index_at};
pub use information::{columns, isblank, isnumber, n_, rows};
pub use items::{logical_of, place_of, value_of};
pub use logic::{and_, false_, not_, or_, true_};
pub use lookups::{MatchKind, hlookup, lookup_at, match_place, record_at, vlookup};
pub use pick::Pick;
pub use products::{mmult, sumproduct, transpose};
pub use rounding::{abs_, int, mod_, power, round};
pub use sums::{average, count, max, min, sum};
pub use table::{call, is_choosing};
