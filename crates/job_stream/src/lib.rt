//! The output stream of a job: its programs in the versions that a plan chose, in the slots of their schedule.
//!
//! `write_job_stream` writes it to a sink. Versions are made as they are sent. `laws` says how long it is, and that there is one.
//! Stands on `mux_writer`, `version_source`, `program_table` and `job_programs`.
#![tactic(auto)]

pub mod laws;
mod layout;
mod write;

pub use write::write_job_stream;
