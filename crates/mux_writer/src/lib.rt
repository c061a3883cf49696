//! The transport stream of a schedule, byte for byte (ISO/IEC 13818-1, 2.4.3 and 2.4.4).
//!
//! `write_stream` writes, for each slot of a schedule, the packet that stands in it: the PAT, a program's PMT, a packet with a
//! PCR, a piece of a stream, or a null packet. It takes the pieces from a `PieceSource`, gives packets to a sink, 64 at a time,
//! and takes no memory. `StreamWriter` gives the same packets one by one. `Layout` says what the stream's programs are, and `output_map` gives a program's map its PIDs in the
//! stream. Stands on `ts_packets`, `psi_tables`, `pcr_writer`, `slot_rule` and `shelf_io`.
#![tactic(auto)]

mod counters;
mod gathered;
pub mod laws;
mod layout;
mod packets;
mod piece_source;
mod prepared;
mod stream;
mod stream_writer;

pub use layout::{LAYOUT_STREAMS_MOST, Layout, PROGRAM_STREAMS_MOST, output_map};
pub use piece_source::{Filled, PieceSource};
pub use stream::write_stream;
pub use stream_writer::StreamWriter;
