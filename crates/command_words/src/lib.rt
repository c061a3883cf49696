//! What the commands share: their words, the statuses that they end with, and how one ends.
//!
//! `parse` says which command words are. A command's crate fills a `Task` of specs/Task.antt, which says what the command has to
//! do, and its call performs that task (`Performs` of specs/Ended.antt). Stands on `shelf_io`, `slot_rule`, `job_programs`,
//! `certificate_checker`, `job_report`, `run_report` and `program_maker`.
#![tactic(auto)]

mod command;
mod ended;
mod report;
mod status;

pub use command::{
    AuditWords, CheckFiles, CheckPlanFiles, FitFiles, GenWords, ImpossibleFiles, Parsed, PlanFiles,
    ProbeWords, RunFiles, decimal_number, parse,
};
pub use ended::{Ended, end_missing, end_refused_source, end_unread, end_unwritten, end_with};
pub use report::{cert_report, miss_report, refusal_report};
pub use status::{CertRefusal, JobRefusal, Status};
