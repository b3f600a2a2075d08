//! The check of a certificate against a workbook, over surroundings that are made here, or over words and handles that are handed in. It
//! stands on no search.
//! The main call is `check_run`. It reads the words, opens the workbook, reads the certificate, makes the linear model of the first sheet,
//! and checks one against the other. `Verdict` says what is found, and `CheckStatus` how the check ends. `check_surroundings` and
//! `check_here` are for the real program.
//! Below it stand `sheet_linear_model`, which makes the model as it does for `opensolver`, and `run_inputs`. Above it stand the program
//! `optcheck`, and `check_answers`, which runs cases.
//! What is claimed and how it is checked is written in docs/CERTIFICATES.md, over Chvátal, Linear Programming, chapters 5 and 9.
#![tactic(auto)]

mod certificate;
mod found;
mod halt;
mod line;
mod prepared;
mod reading;
mod real;
mod say;
mod status;
mod surroundings;
mod top;
mod value;
mod verdict;
mod words;

pub use halt::Halt;
pub use real::check_for_real;
pub use status::CheckStatus;
pub use surroundings::{CheckSurroundings, check_here, check_surroundings};
pub use top::check_run;
pub use verdict::Verdict;
