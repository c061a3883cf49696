//! Tests of generated programs, with values of a program that shares nothing with the crate.
//!
//! They stand in a crate of their own, so that a change here proves nothing below again. Stands on `program_maker`.
#![tactic(auto)]

#[cfg(test)]
mod tests;
