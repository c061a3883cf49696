//! Laws of reading a job's stream as the programs that it was made of, each the contract of a function that does nothing
//! (ISO/IEC 13818-1, 2.4).
//!
//! `programs`: each program of an output stream is taken out of it, with no refusal and nothing left out. `parsed`: its video is read as the units
//! that were sent, with their times, and its audio PES packets as they were. Stands on the laws of `layer_laws` and `output_laws`.
#![tactic(auto)]

pub mod parsed;
pub mod programs;
