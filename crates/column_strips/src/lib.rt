//! The areas to which formulas refer, kept by the formulas' cells and, for each column of a sheet, as strips of rows; and the
//! cells from which references lead to a cell.
#![tactic(auto)]

mod affected;
mod column;
mod columns;
mod formulas;
mod gather;
mod kept;
mod marks;
mod rows;
mod strip;
mod table;

pub use formulas::{Formula, first_not_before};
pub use marks::Marks;
pub use memory::Memory;
pub use strip::Strip;
pub use table::ReferenceTable;
