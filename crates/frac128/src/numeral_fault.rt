// Why a text is read as no number.

use thiserror::Error;

/// Why a text is no narrow number.
#[derive(Debug, Clone, Copy, PartialEq, Eq, Drop, Error)]
pub enum NumeralFault {
    /// No numeral is spelled so.
    #[error("not a numeral")]
    NotNumeral,
    /// It is a numeral, but its value or its digits do not fit 128 bits.
    #[error("a numeral does not fit 128 bits")]
    TooWide,
}
