//! Laws of reading an output stream, each the contract of a function that does nothing: each PID is read as what was sent on it
//! (ISO/IEC 13818-1, 2.4).
//!
//! `tables`: the PAT's and the PMTs' sections are found, and say the programs and maps that were written. `pids`: no packet is
//! refused, and each PID carries the payloads that its slots sent, in order. `streams`: in the slots of a schedule these are a
//! stream's items, and its PES packets are gathered again. Stands on the definitions of `mux_writer` and the laws of `layer_laws`.
#![tactic(auto)]

pub mod pids;
pub mod streams;
pub mod tables;
