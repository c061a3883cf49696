//! The state that a unit leaves in force, for tests and for what measures.
//!
//! Stands on `picture_reader`.
#![tactic(auto)]

mod states;

pub use states::state_behind;
