//! The elementary streams of a program by their PES packets (ISO/IEC 13818-1, 2.4.3.6 and 2.4.3.7).
//!
//! `take_packets` takes the PES packets of a stream, all but a last one that the file's end cuts, and joins their payloads; `audio_starts`
//! places the times of audio PES packets on one axis; `read_stream` gives an audio stream's frames with their times. Each answers its
//! value, or the first fault. `laws` has that there is one answer, and that a file's streams have no more bytes than the file.
//! Stands on `ts_demux`, `pes_units` and `audio_frames`.
#![tactic(auto)]

mod audio_stream;
pub mod laws;
mod pes_packets;
mod pes_starts;
mod stream_fault;

pub use audio_stream::{ReadStream, read_stream};
pub use pes_packets::{PlacedPacket, TakenPackets, bytes_behind, bytes_of, take_packets};
pub use pes_starts::{AxisTime, PES_PACKETS_MOST, audio_starts, decoding_time};
pub use stream_fault::StreamFault;
