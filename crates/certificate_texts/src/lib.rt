//! Certificates as texts: written, and read again.
#![tactic(auto)]

mod cert;
mod claim;
mod cutting;
mod draft;
mod line;
mod lists;
mod number;
mod places;
mod read;
mod write;

pub use cert::{Cert, CertFault};
pub use read::read_cert;
pub use write::write_cert;
