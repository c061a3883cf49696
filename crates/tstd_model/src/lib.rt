//! The system target decoder (T-STD) of ISO/IEC 13818-1, 2.4.2, read byte by byte: where its first fault is.
//!
//! Times are in subticks (1/940 of a tick of 1/27,000,000 s), and every instant is a whole number of them. A byte is in
//! a buffer from the instant at which it comes until, not including, the instant at which it leaves.
//! `first_fault` is exactly that fault. Stands on `stream_constants`.
#![tactic(auto)]

mod decoder_input;
mod earliest;
mod fault;
mod instants;
mod leave_queue;
mod leaves;
mod move_watch;
mod moves;
mod packet_bytes;
mod packet_watch;
mod passing;
mod removal_runs;
mod removed_bytes;
mod runs;
mod sizes;
mod sure;
mod system_decoder;
mod taken;
mod tb_bytes;
mod tb_watch;
mod walks;

pub use decoder_input::{Arrival, BufferKind, PacketPart, Removal};
pub use fault::TstdFault;
pub use packet_watch::PacketWatch;
pub use system_decoder::first_fault;
