//! A program of a transport stream of constant rate, judged by the model of the decoder (ISO/IEC 13818-1, 2.4.2).
//!
//! What is found is said in specs: the clock of the file and the program clock references that are off (`Clock`), what comes to the buffers of each stream
//! and is removed from them (`PesBytes`, `Removals`, `Streams`), a transport buffer that isn't empty once in a second (`NeverEmpty`), what is found on
//! streams and which finding is the first (`Findings`), and that of a program of a file (`Audit`). `tstd_model` is the judge of buffers.
#![tactic(auto)]

mod arrival_pass;
mod arrivals;
mod audit_stop;
mod audited_audio;
mod audited_program;
mod audited_stream;
mod audited_video;
mod busy_time;
mod busy_watch;
mod bytes_before;
mod clock;
mod clock_pass;
mod file_clock;
mod finding;
mod frame_removals;
mod judge;
mod kept_units;
pub mod laws;
mod packets_of;
mod pes_parts;
mod place_pass;
mod place_walk;
mod places_fault;
mod read_program;
mod removals;
mod section_pass;
mod sections;
mod stream_watch;
mod streams_of;
mod video_packets;

pub use arrival_pass::read_arrivals;
pub use arrivals::arrivals_in;
pub use audit_stop::AuditStop;
pub use audited_audio::audio_stream;
pub use audited_program::{AUDITED_BYTES_MOST, audit};
pub use audited_stream::AuditedStream;
pub use audited_video::video_stream;
pub use busy_time::first_full;
pub use clock::{FileClock, PCR_TOLERANCE_TICKS, clock_in, first_pcr};
pub use clock_pass::read_clock;
pub use file_clock::{FoundClock, NULL_PID, found_clock};
pub use finding::{FaultName, Finding};
pub use judge::{find, find_first, find_on};
pub use kept_units::KeptUnits;
pub use packets_of::stream_packets;
pub use pes_parts::{KeptBytes, PesParts};
pub use place_pass::pass_places;
pub use place_walk::PlaceWalk;
pub use places_fault::{PACKETS_MOST, PlacesFault};
pub use removals::unit_removals;
pub use section_pass::pass_sections;
pub use sections::system_stream;
pub use stream_watch::{StreamWatch, watch_stream};
pub use video_packets::video_of;
