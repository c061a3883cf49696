//! Tests of the command `run` over shelves in memory: what is sent of generated programs, read by itself, OUT as the source of a
//! second job, a job of files of both forms, jobs that are refused, and writes that fail.
//!
//! They stand in a crate of their own, so that a change here proves nothing below again. Stands on `remux_core`, and on
//! `program_reader` and `version_maker`, by which OUT is read and made again.
#![tactic(auto)]

#[cfg(test)]
mod forms;
#[cfg(test)]
mod kept_versions;
#[cfg(test)]
mod refused;
#[cfg(test)]
mod second_run;
#[cfg(test)]
mod shelves;
#[cfg(test)]
mod streams;
