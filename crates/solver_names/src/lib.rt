//! What the Solver's names of a sheet state: the cells to be decided, what is wanted of the objective, and the rows.
//! The main call is `statement`. It reads the names of a sheet, and answers with the `Statement` that they make or with the first fault in
//! them. Each row is a `RowOf`: a cell on the left, a relation, and a place on the right. `side_trees` gives the trees of the right sides
//! that are expressions.
//! Below it stand `workbook`, which has the names with their texts, and `optimality`, which has goals and relations. Above it stands
//! `sheet_problems`.
//! The names are those of Excel's Solver (docs/FORMATS.md). The order of faults and the limits are the program's own.
#![tactic(auto)]

mod cells;
mod columns;
mod constraints;
mod fault;
mod faults;
mod groups;
mod limits;
mod name;
mod names;
mod rows;
mod said;
mod sides;
mod stated;
mod statements;
mod texts;

pub use fault::NamesFault;
pub use limits::{MOST_CONSTRAINTS, MOST_DECISIONS, MOST_ROWS};
pub use sides::side_trees;
pub use stated::statement;
pub use statements::{RowOf, Statement};
