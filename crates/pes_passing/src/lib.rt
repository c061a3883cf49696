//! The PES packets of one stream of a file, while the file's bytes come out of a source (ISO/IEC 13818-1, 2.4.3.3).
//!
//! `PassingPackets` gives one PES packet after the other, each with its place, and keeps none but the one that is open: so no file is held whole. They are
//! those that `demux` of `ts_demux` takes out of the file at once, and the first packet that is refused is the same. Stands on `ts_demux`, whose `PacketBuffer`
//! gives the transport packets and whose `CarriedPackets` what they carry. `ElementPackets` gives those of a program stream (2.5.3), which `split` of
//! `program_stream` takes out of it at once; it stands on that crate's `PassingElements`.
#![tactic(auto)]

mod element_packets;
pub mod laws;
mod open_packet;
mod passing_packets;

pub use element_packets::ElementPackets;
pub use passing_packets::PassingPackets;
