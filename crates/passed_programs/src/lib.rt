//! A program of a file, read while the file passes, so that the bytes of its streams aren't kept.
//!
//! `pass_program` reads one of a file of a shelf: its tables, its video by `read_video`, each audio stream by `read_audio`, each of these by a pass over the file (`FilePass` of
//! `file_pass`); `read_id_video` and `read_id_audio` read those of a program stream by their ids. A video goes packet by packet into a `VideoWalk` of `program_reader`, an audio
//! stream (ISO/IEC 13818-1, 2.4.3.7; ISO/IEC 11172-3, 2.4) into an `AudioWalk` of `audio_walk`. `due_passed` makes the program of what was read of the streams. It is the program
//! that `read_program` of `program_reader` takes out of the file, without the bytes of its streams (`IsReadOff`): `laws`, `video_laws` and `audio_laws` say so. Stands on these and
//! on `stream_pass`.
#![tactic(auto)]

pub mod audio_laws;
mod due_program;
mod due_streams;
mod file_program;
mod held_program;
pub mod laws;
mod passed_audio;
mod passed_audios;
mod passed_fault;
mod passed_program;
mod passed_video;
mod passes;
mod read_fault;
mod sized_passed;
mod stream_stop;
mod streams_behind;
pub mod video_laws;

pub use due_program::{FoundMap, due_passed};
pub use file_program::{ProgramWanted, pass_program};
pub use passed_audio::{read_audio, read_id_audio};
pub use passed_fault::PassedFault;
pub use passed_program::PassedProgram;
pub use passed_video::{read_id_video, read_video};
pub use read_fault::ReadFault;
pub use sized_passed::SizedPassed;
