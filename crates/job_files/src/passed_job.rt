use job_report::Job;
use list_types::ListOf;
use passed_programs::PassedProgram;
use version_table::Table;

/// A job with its programs, without the bytes of their streams, and their table.
#[derive(Drop)]
pub struct PassedJob {
    pub job: Job,
    pub programs: ListOf<PassedProgram>,
    pub table: Table,
}
