//! The operators and some functions of formulas on values that are known, affine forms of the decisions, or tests of such forms.
#![tactic(auto)]

mod args;
mod choosing;
mod comparing;
mod extremes;
mod forms;
mod information;
mod knowns;
mod lifting;
mod logic;
mod number_tests;
mod operand;
mod operators;
mod pairing;
mod results;
mod rounding;
mod sameness;
mod singles;
mod texts;

pub use args::{operand_in, value_of};
pub use choosing::if_test;
pub use extremes::{max, min};
pub use form_values::{Abs, AbsArg, AbsGrid};
pub use information::{is_number, isblank, isnumber, n_};
pub use logic::{and_, not_, or_};
pub use number_tests::inverse;
pub use operand::{Held, Number, Operand, constant_of, known_number, operand_of};
pub use operators::{infix, minus, percent};
pub use results::{as_entry, as_one, fault, form_refusal};
pub use rounding::{abs_, int, mod_, power, round};
