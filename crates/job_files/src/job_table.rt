use job_report::Job;
use list_types::ListOf;
use program_reader::Program;
use version_table::Table;

/// A job with its programs and their table.
#[derive(Drop)]
pub struct JobTable {
    pub job: Job,
    pub programs: ListOf<Program>,
    pub table: Table,
}
