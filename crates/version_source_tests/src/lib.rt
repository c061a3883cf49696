//! Tests of the piece source of `version_source`, asked in several orders, against versions that are all made before and kept.
//!
//! They stand in a crate of their own, so that a change here proves nothing below again. Stands on `version_source`, and on
//! `program_maker`, `program_reader` and `version_maker`, by which its programs and their versions are made.
#![tactic(auto)]

#[cfg(test)]
mod asking;
#[cfg(test)]
mod item;
#[cfg(test)]
mod kept;
#[cfg(test)]
mod orders;
#[cfg(test)]
mod tests;
