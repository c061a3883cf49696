//! A proof that nothing fits: a window of time that has too little room for even the fewest packets.
//!
//! Packets that are due within a window stand in its free slots. Where the units that are due in it need more packets, each in
//! its smallest version, than it has room, no choice of versions is scheduled. Stands on `dual_bounds`, whose rooms these are,
//! `slot_rule` and `version_table`.
#![tactic(auto)]

mod edges;
pub mod laws;
mod needs;
mod scan;
mod window;

pub use window::{NoRoom, no_room};
