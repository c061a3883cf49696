//! The generated program: a transport stream that is drawn from a seed (ISO/IEC 13818-1, 2.4; 13818-2, 6.2; 11172-3, 2.4).
//!
//! `make_program` gives the bytes that the definition of a seed's program says, and no others: pictures and audio frames by
//! draws of a linear congruential generator, each picture in its written spelling, and all of it in packets. It is a source of
//! test streams: nothing is claimed of decoder buffers. `in_program_stream` puts the packets of a program into the other form. Stands on `macroblock_writer`, `pes_units`, `psi_tables` and
//! `ts_packets`.
#![tactic(auto)]

mod draws;
mod format;
mod frames;
mod heads;
pub mod laws;
mod macroblocks;
mod other_form;
mod output;
mod pictures;
mod program;

pub use format::PICTURES_MOST;
pub use list_types::{ListOf, OutOfMemory};
pub use other_form::{in_program_stream, put_element};
pub use program::make_program;
