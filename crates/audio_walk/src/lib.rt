//! An audio stream of MPEG Layer II that is read while its PES packets pass (ISO/IEC 13818-1, 2.4.3.7; ISO/IEC 11172-3, 2.4).
//!
//! `AudioWalk` takes one PES packet after the other, keeps where each packet and frame stands and no more bytes than a frame has, and answers at its end what
//! `read_stream` of `elementary_streams` answers of all packets at once. Stands on `elementary_streams`, on the `FrameWalk` of `audio_frames` and, for what is all of a stream, on `pes_passing`.
#![tactic(auto)]

mod first_rate;
mod walk;

pub use walk::AudioWalk;
