//! A session: a workbook, and the commands of a script on it.
//! The main type is `Session`, and its main call is `apply`: it does one command and gives the `Answer`. A session also has the open
//! searches and the budget. It marks the files that have changed; a command to save answers with their bytes, and `saved` says that they
//! are written.
//! Below it stand `kept_book`, which has the workbook, `sheet_prices`, `sheet_certificates` and `saved_sheets`. Above it stand
//! `opensolver_cli`, which makes a session of each run, and `session_laws`.
//! The commands are the program's own (docs/COMMANDS.md).
#![tactic(auto)]

mod certificates;
mod edits;
mod laws;
mod models;
mod open_searches;
mod opening;
mod prices;
mod saving;
mod session;
mod slicing;
mod solving;

pub use commands::{Answer, Command, MOST_UNITS, Memory, SaveFile, line, units_in};
pub use kept_book::Steps;
pub use laws::{other_searches_stay, searches_are_apart, sheets_stay, slices_count_on};
pub use model_lines::ModelLines;
pub use open_searches::MOST_SEARCHES;
pub use session::Session;
