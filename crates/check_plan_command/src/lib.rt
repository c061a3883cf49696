//! The command `check-plan TABLE CERT`: whether a certificate holds for a table.
//!
//! `check_plan` performs the command's task (specs/CheckPlanCommand.antt). Stands on `command_words`, `plan_command` for the
//! refusals of a table's text, `check_command` for the verdict on a certificate, `version_table`, `bound_certificate` and `shelf_io`.
#![tactic(auto)]

pub mod laws;
mod steps;

pub use steps::check_plan;
