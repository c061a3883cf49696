//! Transport packets both ways (ISO/IEC 13818-1, 2.4.3.2 to 2.4.3.5).
//!
//! `Packet::read` answers the packet that 188 bytes stand for, or the first fault that they have. `Packet::write` makes
//! the 188 bytes of a packet, stuffed with FF, which are read as the same packet. The definitions of the packets of a
//! whole file and of the joined payload of a PID stand here too, for the crates that read streams. No call takes
//! memory. Stands on the definitions of `bit_lists`.
#![tactic(auto)]

mod adaptation_field;
mod last_payload;
pub mod laws;
mod packet;
mod packet_fault;
mod pid_fault;
mod pid_reader;

pub use adaptation_field::AdaptationField;
pub use packet::{Packet, pid_of};
pub use packet_fault::PacketFault;
pub use pid_fault::PidFault;
pub use pid_reader::PidReader;
