// Why a sheet has no linear model.
use cell_refs::{Cell, Span};
use thiserror::Error;
use workbook::Place;

/// The first reason why a sheet has no linear model, after its names.
#[derive(Clone, Copy, Debug, PartialEq, Eq, Error)]
pub enum FormRefusal {
    /// A needed cell says nothing that is allowed.
    #[error("a needed cell says nothing that is allowed")]
    Malformed(Cell),
    /// A needed place stands on a circle of references.
    #[error("a needed place stands on a circle of references")]
    Circular(Place),
    /// The part of a needed formula at this place of its text isn't affine.
    #[error("a part of a needed formula is not affine")]
    NotAffine(Place, Span),
    /// On the part at this place of its text it depends what a needed formula is, and that is open.
    #[error("an open part decides what a needed formula is")]
    Undecided(Place, Span),
    /// A needed formula meets a number that isn't narrow.
    #[error("a number of a needed formula is too wide")]
    Wide(Place),
    /// The objective or a side isn't a number.
    #[error("the objective or a side is no number")]
    NotNumber(Place),
}
