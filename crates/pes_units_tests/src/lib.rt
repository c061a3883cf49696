//! Tests of `pes_units`: PES headers both ways, with bytes worked out by hand.
//!
//! They stand in a crate of their own, so that nothing below is proved again for them. Stands on `pes_units`.
#![tactic(auto)]

#[cfg(test)]
mod tests;
