//! The run of the program, over a folder, a script and a sink that are handed in.
//! The main call is `run`. It reads the words, finds the workbook and the records, answers record by record with one piece of output for
//! each, and gives the `Status` in which the run ends. A `save` writes files before its line is printed. Other words ask for a workbook
//! that is made up.
//! Below it stand `session`, which does the commands, `run_inputs` and `made_up_books`. Above it stands `real_run`.
//! What a run prints is the program's own (docs/FORMATS.md and docs/COMMANDS.md). Its contract says it of whole runs (docs/ARCHITECTURE.md,
//! "What the proof joins").
#![tactic(auto)]

mod answer;
mod counted;
mod made_up;
mod saving;
mod top;

pub use commands::{Answer, Command, PriceLine, PriceLines, line};
pub use run_inputs::Status;
pub use session::{Session, Steps};
pub use top::run;
