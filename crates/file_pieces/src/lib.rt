//! The pieces of programs in chosen versions, made of files that are read again while they are sent, so that neither videos nor audio are held.
//!
//! `LentPieces` is a `PieceSource` while a shelf is lent to it; `FilePieces` is what it keeps, and a `Lane` what is sent of a stream. A file that isn't what it was
//! ends the pieces, which never comes where files are told. `laws` tie what is sent to the programs of the files. Stands on `version_source`, `es_window` and
//! `file_pass`.
#![tactic(auto)]

mod again_fault;
mod file_stream;
mod kept_pieces;
mod lane;
mod lane_state;
pub mod laws;
mod lent_pieces;
pub mod limits;
mod program_lanes;
mod stream_place;
mod unit_again;

pub use again_fault::AgainFault;
pub use file_stream::FileStream;
pub use kept_pieces::{FilePieces, PieceNumber, PiecesStop};
pub use lane::{AudioLane, Lane, VideoLane};
pub use lane_state::LaneState;
pub use lent_pieces::LentPieces;
pub use program_lanes::{SentProgram, push_lanes};
pub use stream_place::StreamPlace;
pub use unit_again::{UnitPlan, packet_again, state_again};
