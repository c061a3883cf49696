//! Tests of the videos and audio streams of `passed_programs`, over generated programs and packets by hand, out of sources that give a file in pieces.
//!
//! They stand in a crate of their own, so that a change here proves nothing below again. Stands on `passed_programs`.
#![tactic(auto)]

#[cfg(test)]
mod audio_tests;
#[cfg(test)]
mod element_tests;
#[cfg(test)]
mod video_tests;
