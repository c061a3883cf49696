//! A stream of a file that is read while the file's bytes come out of a source, by a walk over its PES packets, so that none of them are kept (ISO/IEC 13818-1, 2.4.3.3).
//!
//! `StreamWalk` is what takes the PES packets of a stream one after the other and answers at their end; `pass_stream` gives it those of a file, which
//! `PassingPackets` of `pes_passing` has, as long as they are no more than a program may have. Stands on `pes_passing`, and on `elementary_streams` and
//! `audio_frames` for these limits.
#![tactic(auto)]

pub mod laws;
mod limited_walk;
pub mod limits;
mod passed_elements;
mod passed_stream;
mod read_fault;
mod stream_walk;

pub use passed_elements::pass_elements;
pub use passed_stream::pass_stream;
pub use read_fault::ReadFault;
pub use stream_walk::{StreamWalk, WalkFault};
