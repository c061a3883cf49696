//! The command `audit FILE PROGRAM SLOT`: one program of a transport stream of constant rate, judged by the model of the decoder.
//!
//! `audit_file` performs the command's task (specs/AuditCommand.antt): it reads the program by itself, in slots of SLOT ticks, and hands its
//! units to `stream_audit`. Stands on `command_words`, `job_programs`, `stream_audit`, `version_source` and `program_table`.
#![tactic(auto)]

mod kept;
pub mod laws;
mod refusal;
mod steps;

pub use steps::audit_file;
