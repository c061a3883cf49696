//! The command `gen SEED PICTURES OUT`: the generated program of a seed, as a file.
//!
//! `gen_file` performs the command's task (specs/GenCommand.antt). Stands on `command_words`, `program_maker` and `shelf_io`.
#![tactic(auto)]

pub mod laws;
mod report;
mod steps;

pub use steps::gen_file;
