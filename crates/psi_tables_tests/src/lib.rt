//! Tests of sections, PAT and PMT, with bytes that were worked out by hand or by another program.
//!
//! They stand in a crate of their own, so that a change here proves nothing below again. Stands on `psi_tables`.
#![tactic(auto)]

#[cfg(test)]
mod same;
#[cfg(test)]
mod section_tests;
#[cfg(test)]
mod tests;
