//! The least cost of a coded picture's versions at every price of a packet, as few steps.
//!
//! Stands on `dual_bounds` and `cost_sweep`.
#![tactic(auto)]

pub mod constants;
mod steps;

pub use steps::{add_steps, add_steps_above};

#[cfg(test)]
mod tests;
