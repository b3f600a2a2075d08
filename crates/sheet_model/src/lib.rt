//! Values of cells and of parts of formulas, with their conversions, their order and the operators.
#![tactic(auto)]

mod arithmetic;
mod convert;
mod grid;
mod operators;
mod order;
mod stop;
mod value;

pub use arithmetic::power_of;
pub use convert::{to_logical, to_number};
pub use grid::{Arg, Grid};
pub use memory::Memory;
pub use operators::{infix, minus, percent};
pub use order::{asks_for, compare, compare_numbers, compare_texts, order_laws};
pub use stop::FuncStop;
pub use value::{Text, Value};
