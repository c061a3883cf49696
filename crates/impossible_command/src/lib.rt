//! The command `impossible TABLE`: whether it is shown of a table that no choice is scheduled.
//!
//! `judge_file` performs the command's task (specs/ImpossibleCommand.antt); `verdict` judges a table. Stands on `command_words`,
//! `plan_command` for the refusals of a table's text, `impossible_proof`, `slot_rule`, `version_table` and `shelf_io`.
#![tactic(auto)]

pub mod laws;
mod steps;
mod verdicts;

pub use steps::judge_file;
pub use verdicts::verdict;
