//! Tests of `dual_bounds`: values of windows and multipliers worked out by hand.
//!
//! They stand in a crate of their own, so that nothing below is proved again for them. Stands on `dual_bounds`.
#![tactic(auto)]

#[cfg(test)]
mod tests;
