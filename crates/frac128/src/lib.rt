//! Exact fractions whose parts fit 128 bits.
#![tactic(auto)]

mod fault;
mod integers;
mod laws;
mod number;
mod numeral;
mod numeral_fault;
mod parts;
mod read;
mod significand;
mod write;

pub use fault::Wide;
pub use laws::{divisor_is_greatest, narrow_is_tested};
pub use memory::Memory;
pub use number::Frac;
pub use numeral_fault::NumeralFault;
pub use read::no_text_spells_two;
pub use write::{places_are_least, printed_reads_back};
