//! The command `plan TABLE CERT`: from the file of a table to the certificate of its plan.
//!
//! `plan_file` performs the command's task (specs/PlanCommand.antt); `plan_of_table` plans a table, for `run` too;
//! `end_refused_table` ends a command by the refusal of a table's text, `check-plan` too. Stands on `command_words`,
//! `branch_plan`, `bound_certificate`, `version_table`, `slot_rule` and `shelf_io`.
#![tactic(auto)]

mod cert_room;
pub mod laws;
mod planned;
mod report;
mod steps;

pub use planned::plan_of_table;
pub use steps::{end_refused_table, plan_file};
