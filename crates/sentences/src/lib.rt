//! What is said to people on standard error about how a command ended: a sentence for each exit status but 0, and for 0 where
//! something went out otherwise than a reader may think. And about how long a stream will be, for who waits for it.
//!
//! It is made of the words of the command, the exit status, the line that was printed and the types of the pictures that were sent, so that
//! no other crate knows of it. Where a sentence wants more, the text of the job or table and the file that was refused are read once more.
//! Nothing rests on the wording, and nothing is promised of it. Stands on `job_report` and `version_table` for what is allowed in texts, on
//! `program_reader` and `job_programs` for the limits of programs, on `window_slots` for the rate at which a window of time has room, on
//! `ts_packets`, `ts_demux`, `program_stream`, `pes_units`, `pes_walk` and `audio_frames` for places in streams, on `shelf_kinds` for the files.
#![tactic(auto)]

mod amounts;
mod audio_again;
mod audited;
mod buffers;
mod carrier;
mod certificates;
mod clock;
mod coarser;
mod crowd;
mod done;
mod elements;
mod extent;
mod first_header;
mod fitted;
mod job_again;
mod jumps;
mod kinds;
mod lateness;
mod length;
mod limits;
mod line;
mod misses;
mod named_program;
mod outside;
mod owners;
mod print;
mod sent_pictures;
mod sources;
mod table_again;
mod texts;

pub use crate::length::stream_bytes;
pub use crate::line::End;
pub use crate::print::print_sentence;
pub use crate::sent_pictures::SentPictures;
