//! The numbers of ISO/IEC 13818-1 and 13818-2 that several crates cite, each once, with its section and derivation.
//!
//! A tick is 1/27,000,000 s, the period of the system clock (13818-1, 2.4.2.1). Where a number follows from others of
//! the standard, that is proved beside it. Stands on nothing.
#![tactic(auto)]

pub mod clock;
pub mod decoder;
pub mod limits;
pub mod main_level;
pub mod packets;
pub mod start_codes;
