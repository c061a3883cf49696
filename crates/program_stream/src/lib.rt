//! A program is taken out of a program stream (ISO/IEC 13818-1, 2.5), the form of DVDs and of masters in archives.
//!
//! `split` answers the PES packets of its first video stream and of its audio streams as `ts_demux` answers those of a transport
//! stream, or the first refusal with its place in the file. That is one answer alone: `laws::one_answer`, `laws::some_answer`. The same packets put into
//! either form are taken out of both alike: `laws::same_packets`.
//! `split_source` answers the same of the file that a source gives, whose elements pass one by one (`PassingElements`), and `read_streams` the same but for the packets.
//! Stands on `ts_demux` for what is answered, on `shelf_io` for sources, and on `pes_units` for the fields of packets.
#![tactic(auto)]

mod element_buffer;
mod element_fault;
mod element_streams;
mod found_elements;
mod front;
mod id_walk;
pub mod laws;
mod packet_streams;
mod passing_elements;
mod source_elements;
mod source_split;
mod split_fault;
mod split_file;
pub mod stream_ids;
pub mod stream_laws;
mod stream_walk;

pub use element_fault::ElementFault;
pub use element_streams::read_streams;
pub use found_elements::find_elements;
pub use passing_elements::{Passed, PassingElements};
pub use source_elements::find_source_elements;
pub use source_split::split_source;
pub use split_fault::SplitFault;
pub use split_file::split;
pub use stream_walk::map_stream;
