//! Tests of job texts and report lines, with answers that were worked out by hand from the rules.
//!
//! They stand in a crate of their own, so that a change here proves nothing below again. Stands on `job_report`.
#![tactic(auto)]

#[cfg(test)]
mod job_texts;
#[cfg(test)]
mod refusals_in_words;
#[cfg(test)]
mod report_lines;
