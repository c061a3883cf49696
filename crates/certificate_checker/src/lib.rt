//! Certificates checked: whether the tree of a certificate shows its bound, or the first fault that it has.
//!
//! A doubter needs the table and the certificate, and not the search that made it: each node is worked out again. Stands on
//! `bound_certificate`, `dual_bounds`, `buffer_windows`, `slot_rule` and `version_table`.
#![tactic(auto)]

mod buffer_faults;
mod checker;
mod costs;
mod faults;
mod filling;
pub mod laws;
mod links;
mod order;
mod path;
mod prices;
mod sums;
mod tally;
mod walk;
mod why;

pub use checker::{CheckRoom, check};
pub use why::{CertFault, Why};
