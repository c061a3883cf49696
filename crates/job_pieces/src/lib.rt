//! The stream of a job, made of the files of its programs while it is written, so that neither videos nor audio are held.
//!
//! `job_lanes` says what is sent of a job's programs, each read off without the bytes of its streams. `SentStream::append` adds the stream of lanes to another file of
//! their shelf: pieces and that file take turns on it. `laws` tie the two: the lanes of a job can be sent, and their stream is the job's. Stands on `file_pieces`,
//! `mux_writer`, `job_stream` and `passed_programs`.
#![tactic(auto)]

mod fill;
mod lanes;
mod lanes_stop;
pub mod laws;
mod room;
mod sending;
mod stream;

pub use lanes::job_lanes;
pub use lanes_stop::LanesStop;
pub use stream::SentStream;
