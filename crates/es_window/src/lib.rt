//! The bytes of an elementary stream, read forward out of a source while only a window of them is held.
//!
//! `EsWindow` holds the bytes of a stream that have come, from a place on that goes forward. `PassingBytes` fills one with the PES packets of one stream of a
//! transport stream, or with their payloads, as `PassingPackets` of `pes_passing` gives them; `ElementBytes` with those of a program stream (2.5.3), as its
//! `ElementPackets` does. Stands on `pes_passing`, `pes_walk`, `ts_demux` and `program_stream`.
#![tactic(auto)]

mod element_bytes;
mod held_part;
mod passing_bytes;
mod window;

pub use element_bytes::ElementBytes;
pub use held_part::HeldPart;
pub use passing_bytes::PassingBytes;
pub use window::EsWindow;
