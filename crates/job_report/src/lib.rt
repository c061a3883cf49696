//! Job texts and report lines: what a user writes for a run, and what a command prints.
//!
//! A job is a TOML document that names the programs of a run and what the planner may spend. `read_job` answers the job
//! that a text spells, or exactly the first refusal of the text. A report is what a command ended with. `report_text`
//! writes its one line of JSON. Stands on `version_table` for the limits of tables, on `toml` and on `serde_json`.
#![tactic(auto)]

mod arrays;
mod fault;
mod fields;
mod fit_objects;
mod job;
pub mod limits;
mod line;
mod names;
mod objects;
mod place;
mod programs;
mod read;
mod report;
mod shared;
mod values;
mod wording;

pub use fault::JobFault;
pub use job::{Form, Job, ProgramJob};
pub use line::report_text;
pub use list_types::{ListOf, OutOfMemory, Text};
pub use read::read_job;
pub use report::{ProgramReport, Report, SlotMiss, SlotVerdict};
pub use shared::shared_file;
pub use version_table::Choice;
