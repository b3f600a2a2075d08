//! The areas to which the formulas of a workbook refer, which cells are circular, and an order in which each formula comes behind those to
//! which it refers.
//! The main type is `Deps`. `open` lists the references of a workbook; `put` and `take` keep those of one cell up to date. `tour` gives the
//! circular cells and the order of the others, `tour_from` that for the formulas which a cell reaches. `affected` marks the cells from
//! which references lead to a cell.
//! Below it stand `column_strips`, which keeps the areas as strips of rows, and `workbook`. Above it stand `recalc` and `extract`.
//! What is circular is defined in `recalculation`; the rule is the program's own.
#![tactic(auto)]

mod cells;
mod deps;
mod find;
mod open;
mod reach;
mod reached;
mod tour;

pub use cells::CellSet;
pub use column_strips::{Marks, Strip};
pub use deps::{Deps, Tour};
pub use sheet_model::Memory;
