//! Tests of the programs of jobs, over a shelf in memory that holds generated programs.
//!
//! They stand in a crate of their own, so that a change here proves nothing below again. Stands on `job_programs`.
#![tactic(auto)]

#[cfg(test)]
mod tests;
