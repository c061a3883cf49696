//! Tests of whole units, spelled by hand from the syntax and code tables (ISO/IEC 13818-2, 6.2 and Annex B).
//!
//! They stand in a crate of their own, so that a change here proves nothing below again. Stands on `picture_reader`.
#![tactic(auto)]

#[cfg(test)]
mod cuts;
#[cfg(test)]
mod fixtures;
#[cfg(test)]
mod pictures;
#[cfg(test)]
mod refusals;
