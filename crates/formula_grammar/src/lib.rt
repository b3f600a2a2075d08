//! The grammar of formulas: which symbols spell which tree, and how symbols are read from left to right. This crate has the
//! definitions and their laws.
#![tactic(auto)]

mod laws;
mod symbol;

pub use laws::{no_symbols_spell_two_trees, no_text_spells_two_trees};
pub use symbol::{Sign, Symbol};
