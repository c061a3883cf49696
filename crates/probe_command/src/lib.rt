//! The command `probe FILE PROGRAM TABLE`: from a file to the text of the table of one of its programs.
//!
//! `probe_file` performs the command's task (specs/ProbeCommand.antt). Stands on `command_words`, `job_programs`, `program_table`,
//! `version_table` and `shelf_io`.
#![tactic(auto)]

pub mod laws;
mod report;
mod steps;

pub use steps::probe_file;
