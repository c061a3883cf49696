//! Laws of reading a job's stream, each the contract of a function that does nothing: each of its streams is read as what its
//! programs send in chosen versions. Stands on `output_laws` and `job_stream`.
#![tactic(auto)]

pub mod programs;
pub mod streams;
