//! What is reported of a run and of what refuses it, as values of `job_report`.
//!
//! `run_report` says of each program what was sent and what was left out. Refused programs and certificates are named by their
//! kinds, and so are the findings of audits. Stands on `job_report`, `job_programs`, `program_reader`, `stream_audit`, `bound_certificate` and
//! `certificate_checker`.
#![tactic(auto)]

mod findings;
mod kinds;
mod programs;
mod reports;
mod whys;

pub use findings::finding_name;
pub use kinds::kind_name;
pub use reports::{cert_fault_report, finding_report, run_report, source_report};
pub use whys::why_name;
