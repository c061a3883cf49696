//! Certificates as bytes: a plan's choice, and the tree that shows how far it can be from the best one.
//!
//! A certificate has one spelling, of version 1, 2 or 3. Here stand its record, the spelling, and both ways between them: what is
//! written is read back, and bytes that no certificate has are refused at the first byte that shows it.
//! Stands on `dual_bounds`, `buffer_windows`, `version_table` and `list_types`.
#![tactic(auto)]

mod cert;
mod cursor;
mod fault;
pub mod laws;
pub mod limits;
mod priced;
mod read;
mod read_node;
mod write;

pub use cert::{Cert, Node};
pub use fault::CertFormat;
pub use priced::{Priced, priced_windows};
pub use read::read_cert;
pub use write::write_cert;
