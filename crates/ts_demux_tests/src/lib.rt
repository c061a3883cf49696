//! Tests of `demux` over whole files of packets, with answers that were worked out by hand from the rules.
//!
//! They stand in a crate of their own, so that a change here proves nothing below again. Stands on `ts_demux`.
#![tactic(auto)]

#[cfg(test)]
mod files;
#[cfg(test)]
mod packet_tests;
#[cfg(test)]
mod pass_tests;
#[cfg(test)]
mod payload_tests;
#[cfg(test)]
mod sections;
#[cfg(test)]
mod stream_tests;
#[cfg(test)]
mod table_tests;
