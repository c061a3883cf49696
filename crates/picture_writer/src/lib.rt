//! Pictures are written (ISO/IEC 13818-2, 6.2).
//!
//! `write_picture` puts the written spelling of a lawful picture into a sink: its head, each slice behind its start code,
//! closed by the least zero bits to a whole byte, and a sequence end code where one stands; what was written is read as
//! that picture. `write_start_code` and `write_end` put the start codes alone, for callers that write one slice after
//! another. `set_vbv_delay` sets the sixteen bits of vbv_delay in a unit, and nothing else. No call takes memory.
//! Stands on `macroblock_writer`, `bit_cursor`, `syntax_types` and `picture_grammar`, with the laws of `picture_laws`.
#![tactic(auto)]

pub mod laws;
mod picture;
mod slices;
mod vbv_delay;

pub use picture::write_picture;
pub use slices::{write_end, write_start_code};
pub use vbv_delay::set_vbv_delay;

#[cfg(test)]
mod tests;
