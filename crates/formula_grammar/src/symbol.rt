// Symbols: tokens by what they are in a formula.
use cell_refs::Span;

/// What a symbol is.
#[derive(Clone, Copy, Debug, PartialEq, Eq)]
pub enum Sign {
    Number,
    Text,
    Word,
    /// A sheet's name in single quotes.
    Quoted,
    /// The name of an error.
    Fault,
    Plus,
    Minus,
    Times,
    Over,
    Power,
    Percent,
    And,
    Equal,
    Differs,
    Below,
    AtMost,
    Above,
    AtLeast,
    Open,
    Close,
    OpenSquare,
    CloseSquare,
    OpenBrace,
    CloseBrace,
    Semicolon,
    Comma,
    Colon,
    Point,
    Exclamation,
    Tilde,
    Bar,
}

/// A symbol of a formula, and where it stands.
#[derive(Clone, Copy, Debug, PartialEq, Eq)]
pub struct Symbol {
    pub sign: Sign,
    pub span: Span,
}
