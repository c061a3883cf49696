//! Tests of `ts_packets`: packets both ways, with bytes worked out by hand.
//!
//! They stand in a crate of their own, so that nothing below is proved again for them. Stands on `ts_packets`.
#![tactic(auto)]

#[cfg(test)]
mod tests;
