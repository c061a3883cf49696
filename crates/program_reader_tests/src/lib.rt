//! Tests of `read_program` over whole files of packets or elements, with answers that were worked out by hand from the rules.
//!
//! They stand in a crate of their own, so that a change here proves nothing below again. Stands on `program_reader`.
#![tactic(auto)]

#[cfg(test)]
mod audio_tests;
#[cfg(test)]
mod form_tests;
#[cfg(test)]
mod packets;
#[cfg(test)]
mod streams;
#[cfg(test)]
mod video_tests;
