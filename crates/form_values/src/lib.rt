//! Values of formulas while some decisions are open: known values, affine forms and tests of forms.
#![tactic(auto)]

mod abs;
mod laws;
mod open_form;
mod refusal;

pub use abs::{Abs, AbsArg, AbsGrid};
pub use affine_forms::Rel;
pub use laws::open_laws;
pub use open_form::Open;
pub use refusal::OpRefusal;
