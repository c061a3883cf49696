//! The frames of an audio stream of MPEG Layer II and their times (ISO/IEC 11172-3, 2.4; ISO/IEC 13818-3, 2.4).
//!
//! `frames` finds the frames in the joined payload of a stream's PES packets, each behind the one before, and gives each
//! its time on the system clock. It answers why a payload isn't frames, and where. `FrameWalk` answers the same of a payload
//! that comes in pieces, and keeps no more of it than a frame.
//! Stands on `list_types` and the definitions of `bit_lists`.
#![tactic(auto)]

mod ahead;
mod audio_fault;
mod clock;
mod first_frame;
mod followed;
mod frame;
mod frame_header;
mod frame_times;
mod frame_walk;
mod limits;
mod low_rate;
mod pes_start;
mod place_ends;
mod place_steps;
mod sought;

pub use audio_fault::AudioFault;
pub use frame::{Frame, frames};
pub use frame_walk::FrameWalk;
pub use limits::PAYLOAD_BYTES_MOST;
pub use low_rate::has_low_rate;
pub use pes_start::PesStart;
