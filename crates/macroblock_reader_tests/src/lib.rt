//! Tests of macroblocks and slices read from bits that were spelled by hand from the code tables.
//!
//! They stand in a crate of their own, so that a change here proves nothing below again. Stands on `macroblock_reader`.
#![tactic(auto)]

#[cfg(test)]
mod cuts;
#[cfg(test)]
mod fixtures;
#[cfg(test)]
mod macroblocks;
#[cfg(test)]
mod refusals;
#[cfg(test)]
mod slices;
