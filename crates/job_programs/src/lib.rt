//! The programs of a job are read from a shelf of files, or the first refusal among them is answered.
//!
//! `pass_sized_programs` reads each program by passes over its file, so that the bytes of its streams aren't kept, with the sizes of all versions of its
//! units, and tests the limits that the programs of a job share and that of their distortions; `pass_one` does so with one file that is probed.
//! `read_sized_programs` reads each file whole, takes its program out of it and gives the file's bytes up, and `read_alone` reads one of which no table is
//! made. Stands on `passed_programs`, `program_reader`, `job_report` and `shelf_io`.
#![tactic(auto)]

mod alone;
mod distortions;
pub mod laws;
pub mod limits;
mod next;
mod passed;
mod passed_next;
mod probe;
mod read;
mod share;
mod source_fault;
mod times;

pub use alone::{AloneProgram, read_alone};
pub use passed::{PassedPrograms, pass_sized_programs};
pub use probe::pass_one;
pub use read::{SizedPrograms, read_sized_programs};
pub use source_fault::{ProgramsFault, SourceFault};
