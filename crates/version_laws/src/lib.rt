//! How long a version of a coded picture can be, and how far it can lie from its source.
//!
//! A table of pictures has a place for a version that keeps its limits (`version_table::limits`), with the header of a PES
//! packet before its bytes and the greatest weight on its distortion. `laws` says that each version of each unit keeps them.
//! Stands on `version_maker`.
#![tactic(auto)]

pub mod laws;
mod limits;

pub use limits::{UNIT_VERSION_BYTES_MOST, UNIT_VERSION_DISTORTION_MOST};
