// What the text of a cell is.

use frac128::Frac;

/// What the text of a cell is.
#[derive(Clone, Copy, Debug, PartialEq, Eq)]
pub enum Kind {
    /// There is no text.
    Empty,
    Number(Frac),
    Logical(bool),
    Plain,
    Formula,
    /// A formula that cannot be read, or a numeral that does not fit.
    Malformed,
}
