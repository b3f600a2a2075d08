//! The calls of formulas that don't look at all of their arguments, while some decisions are open: IF, IFERROR and CHOOSE look at
//! what they choose, INDEX, VLOOKUP, HLOOKUP and SUMIF at what they pick, and ROWS and COLUMNS at no cell of a reference.
#![tactic(auto)]

mod branches;
mod calls;
mod choices;
mod criteria;
mod ends;
mod lookups;
mod picks;
mod places;
mod records;
mod sizes;
mod source;

pub use calls::call_part;
pub use form_parts::{
    FormsOfCells, Part, array_part, infix_part, known_part, minus_part, percent_part, plus_part,
    reference_part, table_part, unread,
};
