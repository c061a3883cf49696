//! Tests of `split` over whole files, and of `split_source`, `read_streams` and `find_source_elements` over sources, with answers that were worked out by hand from the rules.
//!
//! They stand in a crate of their own, so that a change here proves nothing below again. Stands on `program_stream`.
#![tactic(auto)]

#[cfg(test)]
mod element_tests;
#[cfg(test)]
mod pass_tests;
#[cfg(test)]
mod source_tests;
#[cfg(test)]
mod stream_tests;
