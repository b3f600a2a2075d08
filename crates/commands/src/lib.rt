//! The commands of a script: what a record says, what its texts name, and what is printed of an answer.
//! The main types are `Command`, which `Command::of` makes of a record, and `Answer`, of which `line` prints the line. `locate` finds the
//! cell that an address names. A refusal is a case of `Answer`, so it is named once between where it is found and its line.
//! Below it stand `form_needs` (the refusals of forms), `model_lines` (the lines of a model) and `certificate_texts`. Above it stands
//! `sheet_linear_model`, and with it all that solves a sheet.
//! Commands and lines are the program's own (docs/COMMANDS.md). A script is CSV as the `csv` crate reads it.
#![tactic(auto)]

mod address;
mod answer;
mod certificate;
mod command;
mod laws;
mod lines;
mod locating;
mod price_lines;
mod refusals;
mod save_file;
mod sheet;

pub use answer::{Answer, PathStep};
pub use cell_refs::{MOST_UNITS, number_up_to, units_in};
pub use command::Command;
pub use laws::{addresses_are_spelled, certificates_are_printed};
pub use lines::line;
pub use locating::locate;
pub use price_lines::{PriceLine, PriceLines};
pub use save_file::SaveFile;
pub use sheet_model::Memory;
