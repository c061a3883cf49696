//! At which rates a table fits: for each of some slots, whether the slot rule schedules the smallest choice.
//!
//! A verdict isn't monotone in the slot: what is scheduled in long slots may miss in shorter ones. So `fit` tries each slot that it is given, and
//! `greatest_fit` names the greatest one that is scheduled, which is the least rate. Stands on `slot_rule` and `version_table`.
#![tactic(auto)]

mod greatest;
pub mod laws;
mod times;
mod verdict;
mod verdicts;

pub use greatest::greatest_fit;
pub use verdict::Verdict;
pub use verdicts::{fit, longest};
