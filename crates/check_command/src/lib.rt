//! The command `check JOB CERT`: whether a certificate holds for the programs of a job.
//!
//! `check_job` performs the command's task (specs/CheckCommand.antt); `verdict` tells what becomes of a certificate's bytes, checked
//! against a table, for `check-plan` too. Stands on `command_words`, `job_files`, `certificate_checker`, `bound_certificate` and
//! `shelf_io`.
#![tactic(auto)]

pub mod laws;
mod steps;

pub use steps::{check_job, verdict};
