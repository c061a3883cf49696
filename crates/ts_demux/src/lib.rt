//! A transport stream is taken apart (ISO/IEC 13818-1, 2.4.3 and 2.4.4).
//!
//! `demux` answers the PES packets of one program's video and audio streams, or the first refusal with its place in the file.
//! That is one answer alone: `laws::one_answer`.
//! It reads a file as it reads any source: `PacketBuffer` gives the packets, `read_map` the program's map, `CarriedPackets` what the packets of some
//! PIDs carry. Each is a step that is right for every file that can begin so, so that no file needs to be held whole.
//! `find_map` gives the map of a program in a file with the PID whose sections say it.
//! `places` gives the packets of one PID with their clock references and how much payload each brings, `PlaceReader` packet by packet.
//! `Payloads` is a source over the joined payload of a PID in a file, and takes no memory.
//! Stands on `shelf_io`, `ts_packets`, `psi_tables` and `pes_units`.
#![tactic(auto)]

mod carried_map;
mod carried_packets;
mod carried_streams;
mod demux_fault;
mod demux_program;
mod demuxed;
mod file_packets;
pub mod laws;
mod map_pass;
mod packet_buffer;
mod pass_fault;
mod payload_walk;
mod payloads;
mod pes_gatherer;
mod pid_places;
mod placed_map;
mod section_reader;
mod source_buffer;
mod stream_walk;
mod table_walk;

pub use carried_map::read_streams;
pub use carried_packets::{CarriedPackets, CarriedPid, StreamPayload};
pub use carried_streams::CarriedStreams;
pub use demux_fault::DemuxFault;
pub use demux_program::demux;
pub use demuxed::{AudioStream, Demuxed, PesUnit};
pub use file_packets::packet_at;
pub use map_pass::read_map;
pub use packet_buffer::PacketBuffer;
pub use pass_fault::PassFault;
pub use payloads::Payloads;
pub use pid_places::{Place, PlaceReader, places};
pub use placed_map::{PlacedMap, find_map};
pub use source_buffer::SourceBuffer;
pub use table_walk::TableWalk;
