// Tokens, and why a text has none.
ghost use Rattle.std.specs.Prelude.{◌≡◌};
ghost use Rattle.formula_lexer.specs.declared.token.LexFault.TheVariants.{Memory};

use cell_refs::Span;
use std::alloc::AllocFailed;
use thiserror::Error;

/// What a token is.
#[derive(Clone, Copy, Debug, PartialEq, Eq)]
pub enum TokenKind {
    /// A numeral without a sign and without `%`.
    Number,
    /// A text in double quotes.
    Text,
    Word,
    /// A sheet's name in single quotes, with a dollar sign before it or none.
    Quoted,
    /// The name of an error, as `#N/A`.
    Fault,
    /// An operator, a bracket, a separator, or one of `.`, `!`, `:`, `~` and `|`.
    Mark,
}

/// A token, and where it stands in the text.
#[derive(Clone, Copy, Debug, PartialEq, Eq)]
pub struct Token {
    pub kind: TokenKind,
    pub span: Span,
}

/// Why a text has no list of tokens.
#[derive(Clone, Copy, Debug, PartialEq, Eq, Error)]
pub enum LexFault {
    /// The first byte at which no token begins.
    #[error("no token begins at byte {0}")]
    At(u16),
    #[error("memory ran out")]
    Memory,
}

impl<T: Drop> From<AllocFailed<T>> for LexFault {
    ghost from_gives = { λ _ e. e ≡ Memory };

    fn from(_: AllocFailed<T>) -> LexFault {
        LexFault::Memory
    }
}
