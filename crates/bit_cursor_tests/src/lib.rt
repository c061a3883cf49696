//! Tests of `bit_cursor`: bits read from a source and put into a sink, with bytes worked out by hand.
//!
//! They stand in a crate of their own, so that nothing below is proved again for them. Stands on `bit_cursor`.
#![tactic(auto)]

#[cfg(test)]
mod reader_tests;
#[cfg(test)]
mod same;
#[cfg(test)]
mod writer_tests;
