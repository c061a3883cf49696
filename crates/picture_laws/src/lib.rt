//! Laws of the picture grammar (ISO/IEC 13818-2, 6.2), each the contract of a function that does nothing.
//!
//! `units`: every unit has a spelling or a refusal, and one alone. `written`: what is written of a part is read as that
//! part. `heads` and `pictures`: what a head or a picture that bits spell has. `zero_bits`: no start code begins inside a
//! slice. Stands on `picture_grammar`.
#![tactic(auto)]

pub mod heads;
pub mod locality;
pub mod pictures;
pub mod units;
pub mod written;
pub mod zero_bits;
