//! The values of cells: each is computed once, in an order that the references give.
//! The main call is `value`. It answers with what is `Shown` of a cell: its value as recalculation gives it, or the least wide cell at
//! which it looks. Only the formulas are computed that the cell reaches. `known_in_rounds` computes a value by rounds over all formulas, as
//! the definition says it; tests alone call it.
//! Below it stand `evaluation`, which evaluates one formula, and `dep_table`, which has the order. Above it stands `kept_book`.
//! Values are those of OpenFormula (OpenDocument 1.2 part 2, sections 4 and 6), over exact fractions. What is wide is the program's own
//! rule (docs/RECALCULATION.md).
#![tactic(auto)]

mod circular;
mod fill;
mod gather;
mod places;
mod recalculate;
mod rounds;
mod rows;
mod seen;
mod shown;
mod values;
mod walk;

pub use recalculate::value;
pub use rounds::known_in_rounds;
pub use sheet_model::Memory;
pub use shown::Shown;
