//! What programs in chosen versions send: the pieces of their streams, and a source of them.
//!
//! Each coded picture goes out as a PES packet in the version that a choice names, in pieces of 184 bytes; audio packets go out as
//! they stand. `VersionSource` makes the versions as they are asked for. `laws` says that programs that were read can be sent, that
//! programs have versions, and that the pieces are those that the slot rule queues. Stands on `mux_writer`, `program_reader`,
//! `version_maker` and `pes_units`.
#![tactic(auto)]

pub mod laws;
mod packet;
mod place;
mod sent_video;
mod source;
mod state;

pub use packet::{packet_piece, unit_bytes, with_header};
pub use source::VersionSource;
pub use state::state_behind;
