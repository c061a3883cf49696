//! From the slot rule to the decoder: a schedule's packets keep the buffers of the system target decoder
//! (ISO/IEC 13818-1, 2.4.2) within their sizes.
//!
//! Laws only, as functions that do nothing. Stands on `slot_rule` and `tstd_model`.
#![tactic(auto)]

mod clean;
pub mod laws;

pub use clean::prove_clean;
