//! The words of the command line, and what they ask for.
#![tactic(auto)]

mod line;
mod reading;
mod sheets;
mod values;
mod words;

pub use reading::request;
pub use sheets::stem_of;
pub use words::{Asked, DEFAULT_BUDGET, Job, MOST_MADE_UP, Named, Pick};
