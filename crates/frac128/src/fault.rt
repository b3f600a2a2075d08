// Why a call gives no number or no text.

use thiserror::Error;

/// The result, or a number on the way to it, does not fit.
#[derive(Debug, Clone, Copy, PartialEq, Eq, Drop, Error)]
#[error("a number does not fit 128 bits")]
pub struct Wide;
