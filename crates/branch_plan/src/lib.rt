//! Plans: of each coded picture the version that is sent, and a certificate of how far a plan can be from the best one.
//!
//! A plan is a choice that the slot rule schedules. Its certificate holds a tree whose bound no such choice falls below. Stands
//! on `multiplier_search`, `certificate_checker` and those below them.
#![tactic(auto)]

mod apart;
mod arena;
mod branching;
mod bytes;
mod changes;
mod children;
mod corners;
mod debt;
mod filled;
mod filling;
mod fitting;
mod forward;
mod found;
mod known;
mod leaves;
pub mod limits;
mod open;
mod owed;
mod owing;
mod planner;
mod root;
mod values;
mod whole;

pub use found::Found;
pub use planner::{PlanFault, Planned, Search, plan};
