//! Tests of `window_slots`: longest slots worked out by a program that counts each slot of a window.
//!
//! They stand in a crate of their own, so that nothing below is proved again for them. Stands on `window_slots`.
#![tactic(auto)]

#[cfg(test)]
mod tests;
