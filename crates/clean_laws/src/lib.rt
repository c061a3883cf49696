//! The bytes of a job's stream are clean: read by themselves, they give no buffer of the system target decoder (ISO/IEC 13818-1,
//! 2.4.2) a fault.
//!
//! Laws only, as functions that do nothing. Stands on `job_stream`, which says what a stream's bytes are, and `tstd_bridge`, which
//! says that a schedule's rows are clean.
#![tactic(auto)]

pub mod laws;
