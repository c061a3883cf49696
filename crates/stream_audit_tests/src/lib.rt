//! Tests of `audit` over whole files of packets, with answers that were worked out by hand from the rules.
//!
//! They stand in a crate of their own, so that a change here proves nothing below again. Stands on `stream_audit`.
#![tactic(auto)]

#[cfg(test)]
mod edge_tests;
#[cfg(test)]
mod files;
#[cfg(test)]
mod pass_tests;
#[cfg(test)]
mod refusal_tests;
#[cfg(test)]
mod sections;
