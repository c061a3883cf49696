//! What the commands over jobs share: the job of a file with its programs and their table, or why there is none.
//!
//! `read_job_table` answers the table of a job of a shelf, or why there is none: a text that is refused, a program that is
//! refused, a file that can't be read or isn't there; `read_job_file` and `read_table_of_job` are its two steps. `pass_job_table` and
//! `pass_table_of_job` answer the same without keeping the bytes of the programs' streams. `end_stopped` ends a command there. Stands on `command_words`, `job_report`, `job_programs`, `program_table` and `shelf_io`.
#![tactic(auto)]

mod job_stop;
mod job_table;
pub mod laws;
mod pass;
mod passed_job;
mod read;
mod stopped;
mod text;

pub use job_stop::{JobStop, TextRefusal};
pub use job_table::JobTable;
pub use pass::{pass_job_table, pass_table_of_job};
pub use passed_job::PassedJob;
pub use read::{read_job_file, read_job_table, read_table_of_job};
pub use stopped::end_stopped;
