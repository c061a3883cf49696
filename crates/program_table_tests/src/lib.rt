//! Tests of the row of a program that is read from a file.
//!
//! They stand in a crate of their own, so that a change here proves nothing below again. Stands on `program_table`,
//! `program_reader` and `program_maker`.
#![tactic(auto)]

#[cfg(test)]
mod tests;
