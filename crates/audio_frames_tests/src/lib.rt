//! Tests of `audio_frames`: frames with bytes worked out by hand.
//!
//! They stand in a crate of their own, so that nothing below is proved again for them. Stands on `audio_frames`.
#![tactic(auto)]

#[cfg(test)]
mod tests;
#[cfg(test)]
mod walk_tests;
