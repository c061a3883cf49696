//! The top call: `run` takes the words of a command, a shelf of files and a sink for its report.
//!
//! Its contract is the main theorem: each status comes exactly where its cause stands, a plan is scheduled, its bound is
//! true of every scheduled choice, and no file changes but those that the command writes. Each command is a crate of its own,
//! and a case of `task_of` in specs/Tasks.antt. Stands on `command_words`, `plan_command`, `gen_command`, `run_command`,
//! `check_command`, `probe_command`, `check_plan_command`, `impossible_command`, `fit_command` and `audit_command`.
#![tactic(auto)]

pub mod laws;
mod top_call;

pub use top_call::run;
