//! The rate at which a window of time has room, as the longest slot that gives it.
//!
//! A window of time that has too little room for what is due in it (`impossible_proof`) has more in shorter slots, mostly: the timetable's share
//! and whole slots make it jump, so each slot is looked at. Stands on `dual_bounds`, whose rooms these are, `slot_rule` and `version_table`.
#![tactic(auto)]

mod slots;

pub use slots::longest_slot;
