//! The table of the programs of a job: what the planner is given of them.
//!
//! `table_of` takes the sizes of all versions of all units as they were told when the programs were read, and answers a table in
//! which each unit has the sizes and the weighted distortions of its versions and each audio packet its times; `table_of_passed` does so of
//! programs that were read without the bytes of their streams. `row_of_passed_program` does so for one of them, `row_of_sized_program` for
//! one with its bytes. `laws` says that programs have one table, and that it keeps the limits of tables. Stands on `version_source`,
//! `version_laws`, `version_maker`, `job_programs`, `passed_programs`, `program_reader`, `job_report` and `version_table`.
#![tactic(auto)]

mod audio_rows;
pub mod laws;
mod passed_row;
mod passed_table;
mod sized_row;
mod table;
mod unit_row;

pub use passed_row::row_of_passed_program;
pub use passed_table::table_of_passed;
pub use sized_row::row_of_sized_program;
pub use table::table_of;
