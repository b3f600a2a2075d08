// Parts of a text.

/// A part of a text, in bytes: where it starts, and where it ends.
#[derive(Clone, Copy, Debug, PartialEq, Eq)]
pub struct Span {
    pub start: u16,
    pub end: u16,
}
