// Why a text has no tree.
use thiserror::Error;

/// Why a text has no tree, in the order in which they are looked for: brackets that are too deep, the syntax, the height, and
/// then the others.
#[derive(Clone, Copy, Debug, PartialEq, Eq, Error)]
pub enum ParseFault {
    /// More than 64 brackets are open at a place, or the tree is higher than 512.
    #[error("the formula is nested too deeply")]
    TooDeep,
    /// No tree has that text.
    #[error("the text is no formula")]
    Syntax,
    /// A reference names a sheet that there isn't.
    #[error("there is no such sheet")]
    UnknownSheet,
    /// A call has too few or too many arguments.
    #[error("a function has another number of arguments")]
    ArgumentCount,
    /// A numeral doesn't fit 128 bits.
    #[error("a number is too wide")]
    WideNumeral,
    #[error("memory ran out")]
    Memory,
}
