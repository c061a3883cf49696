//! Numbers of the steps.

/// The greatest price of a packet: 64 lambdas of 2^40.
pub const PRICE_MOST: u64 = 70_368_744_177_664;
