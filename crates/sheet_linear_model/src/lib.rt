//! The linear model of a sheet as its names state it, or the first cause why it has none, and how it is printed.
//! The main call is `prepare`. It reads the names, settles the forms, and answers with what is `Prepared`: the statement, the forms and the
//! model; or with `NoModel`. `model_lines` prints it. The contract says that model and sheet are one problem (`ModelIsTheSheet`).
//! Below it stand `kept_forms`, `model_building`, `statement_laws` and `commands`, in whose `Answer` it refuses. Above it stand
//! `sheet_solving`, `sheet_prices`, `open_forms` and `optcheck_cli`.
//! The names are those of Excel's Solver (docs/FORMATS.md). What a linear model is, is written in docs/MODEL.md.
#![tactic(auto)]

mod lines;
mod numbers;
mod prepared;
mod preparing;
mod roots;
mod stated;

pub use kept_forms::{FormTables, Linked, Steps};
pub use lines::{model_lines, row_numbers};
pub use prepared::{NoModel, Prepared};
pub use preparing::prepare;
