//! Tests of `audio_walk`: frames by hand whose PES packets are cut everywhere.
//!
//! They stand in a crate of their own, so that a change here proves nothing below again. Stands on `audio_walk`.
#![tactic(auto)]

#[cfg(test)]
mod walk_tests;
