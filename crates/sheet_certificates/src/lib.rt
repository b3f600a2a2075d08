//! Certificates of what solves of sheets answer.
//! The main call is `certify`. It solves the model of a sheet by a search of its own, and answers with the claim, the tree that proves it,
//! and the objective's number; or with what stopped the search. Nothing is written. The laws say that what is printed can be read back.
//! Below it stand `sheet_finding`, which runs the search, and `search_trees`, which takes the tree from it. Above it stands `session`.
//! Multipliers that prove an answer are in Chvátal, Linear Programming, chapters 5 and 9; the form of a certificate is the program's own
//! (docs/CERTIFICATES.md).
#![tactic(auto)]

mod certifying;
mod laws;

pub use certifying::certify;
pub use laws::{certificates_are_readable, certificates_read_back};
