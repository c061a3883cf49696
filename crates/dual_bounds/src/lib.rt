//! Lower bounds on the distortion of every scheduled choice, after Lagrange.
//!
//! Packets that are due within a window of time stand in the free slots from a second before the window on and up to a
//! margin before its end. A price on each window charges packets for that room: what the units cost then at least, less
//! what the room is worth, is no more than any scheduled choice costs. Stands on `slot_rule` and `version_table`.
#![tactic(auto)]

mod bounds;
pub mod constants;
mod costs;
mod fixed;
pub mod laws;
mod room;
mod values;
mod windows;

pub use bounds::bound_of;
pub use costs::{price, unit_cost};
pub use fixed::{Fixed, nothing_fixed};
pub use room::{capacity, packets_by, slots_free_below, window_capacity};
pub use values::{dual_value, window_value, windows_of, worth};
pub use windows::{Multiplier, Multipliers, Window, Windows, copied};
