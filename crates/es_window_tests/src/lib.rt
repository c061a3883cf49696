//! Tests of `PassingBytes` over a generated program, out of sources that give its file in pieces.
//!
//! They stand in a crate of their own, so that a change here proves nothing below again. Stands on `es_window`.
#![tactic(auto)]

#[cfg(test)]
mod bytes_tests;
