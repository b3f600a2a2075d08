//! What a run reads before its first record: the files that its words name, and its script; or why it ends there.
//! The main call is `find`, which reads names and sheets, then the script, and gives the workbook with the records, or the `End` of the
//! run: a `Stop` with its line, a failed read, or want of memory. `open_files` does the first half alone. `Status` says how a run ends, by
//! its number too.
//! Below it stand `solver_io` (folders and streams), `workbook`, which opens what is read, and `command_line`. Above it stand
//! `opensolver_cli` and `optcheck_cli`.
//! Files and scripts are CSV as the `csv` crate reads it. The limits, the order of faults and the statuses are the program's own
//! (docs/FORMATS.md).
#![tactic(auto)]

mod files;
mod found;
mod script;
mod status;
mod stop;

pub use files::open_files;
pub use found::find;
pub use status::Status;
pub use stop::{Cause, End, Input, Limit, Stop};
