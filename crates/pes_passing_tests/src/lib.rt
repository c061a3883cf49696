//! Tests of `PassingPackets` and `ElementPackets` over files of packets and elements by hand, out of sources that give them in pieces.
//!
//! They stand in a crate of their own, so that a change here proves nothing below again. Stands on `pes_passing`.
#![tactic(auto)]

#[cfg(test)]
mod element_tests;
#[cfg(test)]
mod passing_tests;
