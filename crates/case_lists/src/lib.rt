//! Lists of cases, as programs that run them read them and print what comes of them: how words, files and bytes are spelled in lines, and
//! how the outcomes of many runs are counted.
//! The main types are `Files`, the files that a case has, `FileLists`, the lists that cases share, `Piece`, what a line spells, and
//! `Outcomes`, which counts the ways in which many runs come out. `words_of` and `calls_of` read lines, `push_spelling` spells bytes.
//! Below it stands no crate of the project. Above it stand `answers` and `check_answers`.
//! The way in which cases are written is the project's own (docs/ARCHITECTURE.md, "Cases of runs"). It serves tests, and its calls have no
//! contracts.
#![tactic(auto)]

mod files;
mod outcomes;
mod pieces;
mod spelling;

pub use files::{FileLists, Files};
pub use outcomes::Outcomes;
pub use pieces::Piece;
pub use spelling::{calls_of, push_lines, push_spelling, words_of};
