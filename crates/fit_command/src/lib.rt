//! The command `fit JOB LIST`: in slots of which lengths, so at which rates, the programs of a job fit.
//!
//! `fit_job` performs the command's task (specs/FitCommand.antt): it reads the job, the list and the programs, once, in the longest of the slots,
//! and runs the slot rule once a slot. Stands on `command_words`, `job_files`, `rate_fit`, `job_report`, `version_table` and `shelf_io`.
#![tactic(auto)]

pub mod laws;
pub mod limits;
mod list;
mod list_fault;
mod reported;
mod steps;

pub use steps::fit_job;
