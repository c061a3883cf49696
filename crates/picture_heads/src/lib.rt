//! The head of a coded picture with another vbv_delay (ISO/IEC 13818-2, 6.2.3 and 6.3.9).
//!
//! A picture whose stream has no constant rate says so by a vbv_delay of 16 ones. `without_delay` gives a head with that
//! vbv_delay. Stands on `picture_grammar` and `picture_laws`.
#![tactic(auto)]

mod delay;
pub mod laws;
mod place;

pub use delay::without_delay;

/// vbv_delay of a picture whose stream has no constant rate (ISO/IEC 13818-2, 6.3.9).
pub const NO_DELAY: u16 = 0xFFFF;

#[cfg(test)]
mod tests;
