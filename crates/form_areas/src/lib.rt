//! Sums, products, picks and counts of areas whose values are known, affine forms of the decisions, or tests of such forms.
#![tactic(auto)]

mod conditional;
mod counting;
mod grids;
mod indexing;
mod items;
mod lookups;
mod matrices;
mod met_places;
mod products;
mod record_errors;
mod records;
mod searches;
mod sums;
mod values;

pub use conditional::countif;
pub use grids::size_of;
pub use indexing::{index_at, index_error};
pub use lookups::lookup_at;
pub use matrices::{mmult, transpose, transpose_elements};
pub use met_places::{places_met, sum_elements, summed_error};
pub use products::sumproduct;
pub use record_errors::record_error;
pub use records::record_at;
pub use sums::{average, count, sum};
pub use values::value_or_error;
