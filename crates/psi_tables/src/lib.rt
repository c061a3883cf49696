//! Sections of program specific information both ways (ISO/IEC 13818-1, 2.4.4).
//!
//! `read_pat` and `read_pmt` answer what a program association section and a program map section say, and `write_pat`
//! and `write_pmt` make such sections, with their CRC, that are read as the same. `crc32` is the remainder of Annex A,
//! and a `SectionBuilder` reads the sections in the payloads of a PID. No call takes memory. Stands on the definitions
//! of `bit_lists`.
#![tactic(auto)]

mod crc;
mod descriptors;
pub mod laws;
mod pat;
mod pmt;
mod program_map;
mod remainders;
mod section;
mod section_builder;
mod section_front;
mod stream;
mod streams;

pub use crc::crc32;
pub use pat::{is_pat, read_pat, write_pat};
pub use pmt::{PACKET_SECTION_BYTES, pmt_length, read_pmt, write_pmt};
pub use program_map::ProgramMap;
pub use section::{SECTION_BYTES, Section, SectionFault};
pub use section_builder::SectionBuilder;
pub use stream::{DESCRIPTOR_BYTES, STREAMS_MOST, Stream};
