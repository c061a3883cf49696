//! The command `run JOB OUT CERT`: from the file of a job to the stream of its programs and the certificate of its plan.
//!
//! `run_job` performs the command's task (specs/RunCommand.antt). Stands on `command_words`, `plan_command`, `job_files`,
//! `job_stream`, the laws of what is written, and `shelf_io`.
#![tactic(auto)]

pub mod laws;
mod steps;
mod write;

pub use steps::run_job;
