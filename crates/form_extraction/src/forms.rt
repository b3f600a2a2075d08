// What the extraction of a form comes to.
use cell_refs::{Place, Span};
use form_values::{Abs, AbsArg};

/// Why a part of a formula is refused.
#[derive(Clone, Copy, Debug, PartialEq, Eq)]
pub enum Why {
    /// The part isn't affine.
    Break,
    /// What the formula is depends on the part, and its value is open.
    Undecided,
    /// A number in the calculation of the part isn't narrow.
    Wide,
}

/// What a part of a formula comes to.
#[derive(Drop)]
pub enum Outcome {
    Gives(AbsArg),
    /// What is refused, by its place in the text.
    Refused(Span, Why),
    /// A cell at which the part looks has no form.
    Without,
}

/// The form of a cell or of a side.
#[derive(Drop)]
pub enum CellForm {
    Form(Abs),
    /// The part of the formula that is refused, by its place in the text.
    Refused(Span, Why),
    /// The least place without a form at which the formula looks.
    Blocked(Place),
    Circular,
    Malformed,
}
