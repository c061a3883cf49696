//! Windows that count what the decoder's buffers can hold, in place of a whole second of free slots.
//!
//! Before a window's first slot no packet goes that is gone more than a second later, and of what is gone sooner no more
//! than the elementary buffers can hold. From that slot on each packet stands in a free slot, and behind the window's tail
//! slot a program's packets are no more than its multiplexing buffer can still give. Stands on `slot_rule`, `dual_bounds` and `version_table`.
#![tactic(auto)]

mod audio;
mod buffers;
pub mod constants;
pub mod laws;
mod near;
mod prices;
mod rooms;
mod values;
mod windows;

pub use prices::{Charged, Prices, charge_of};
pub use rooms::{room, stop};
pub use values::{bound_of_value, bound_of_windows, each_has_left, unit_cost, value_of_windows};
pub use windows::{BufferWindow, BufferWindows};
