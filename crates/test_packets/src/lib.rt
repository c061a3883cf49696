//! Packets of transport streams, and files of them, for the tests of several crates.
//!
//! A test works out what it expects by hand from the bytes that stand here. Stands on `ts_demux`.
#![tactic(auto)]

mod packets;
mod streams;

pub use packets::{FILL, MAP_PID, PAT_PID, alike, file_of, packet, table};
pub use streams::{AUDIO_PID, VIDEO_PID, two_streams};
