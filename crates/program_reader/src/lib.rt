//! A program of a transport stream or a program stream is read: its video units and audio packets with the times at which a decoder wants them.
//!
//! `read_program` answers a program, or the first refusal of its file with its place: one answer alone, by `laws::one_answer`.
//! `read_sized_program` answers the sizes of all versions of its units too, and reads each unit once for both. `unit_weight` says by
//! how much a unit's distortions count. The steps stand in a file each.
//! Stands on `ts_demux`, `program_stream`, `elementary_streams`, `es_units`, `picture_reader`, `version_maker`, `job_report` and those below them.
#![tactic(auto)]

mod audio_sources;
mod audio_streams;
mod audio_types;
mod carry;
mod cut_places;
mod due;
mod due_program;
mod found_streams;
mod frame_walk;
mod kept_units;
pub mod laws;
pub mod limits;
mod packet_bytes;
mod passed_units;
mod picture_times;
mod pieces;
mod program;
mod program_fault;
mod reading;
mod stamp_walk;
mod stream_sizes;
mod timed_picture;
mod times_walk;
mod unit_picture;
mod unit_sizes;
mod video_places;
mod video_stream;
mod video_walk;

pub use carry::unit_weight;
pub use due::{DueClock, EarliestTime, due_units};
pub use due_program::audio_packets_dropped;
pub use kept_units::KeptUnit;
pub use pieces::audio_pieces;
pub use program::{AudioPiece, AudioSource, Program, UnitSource};
pub use program_fault::{ProgramFault, SourceKind, audio_refused, demux_refused, pes_refused};
pub use reading::{SizedProgram, read_program, read_sized_program};
pub use timed_picture::{Role, TimedPicture};
pub use times_walk::TimesWalk;
pub use unit_sizes::{SizesWanted, UnitSizes};
pub use video_walk::{VideoWalk, WalkedVideo};
