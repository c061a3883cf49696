//! What units cost at least together where packets that are due by a time are charged, at one due time after the other.
//!
//! Stands on `sum_tree`.
#![tactic(auto)]

mod sorted;
mod step;
mod sweep;

pub use sorted::SortedSteps;
pub use step::CostStep;
pub use sweep::{CostSweep, Costs};

#[cfg(test)]
mod tests;
