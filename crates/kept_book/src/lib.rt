//! A workbook, with the references of its formulas and the forms of its sheets, which are kept while its cells and names are edited.
//! The main type is `KeptBook`. Its calls put and clear texts, edit names, give the value of a cell, make the model of a sheet, and solve
//! it. References are found when they are first wanted. After an edit they follow, and the forms that it touches are dropped; where there
//! is no memory for that, both are dropped whole.
//! Below it stand `recalc`, which gives values, and `sheet_solving`, which solves. Above it stands `session`.
//! The contracts speak of the workbook, and of forms that are right for it. What is kept is the program's own choice.
#![tactic(auto)]

mod kept_book;
mod marks;
mod references;

pub use kept_book::KeptBook;
pub use sheet_solving::{Allowed, OpenSearch, Steps};
