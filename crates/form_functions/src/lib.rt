//! What functions that look at all of their arguments make of them: the function itself where all are known, else its row of the table
//! of forms.
#![tactic(auto)]

mod called;
mod rows;

pub use called::form_called;
