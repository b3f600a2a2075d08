//! The tokens of a formula's text.
#![tactic(auto)]

mod front;
mod lexer;
mod token;

pub use lexer::{one_list, tokens, tokens_are_slices};
pub use token::{LexFault, Token, TokenKind};
