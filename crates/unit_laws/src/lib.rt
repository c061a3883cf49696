//! Laws of the versions of a program's units (ISO/IEC 13818-2, 6.1.2 and 6.2), each the contract of a function that does nothing: each is a
//! whole unit by its own bytes, and no start code begins inside its slices.
#![tactic(auto)]

pub mod units;
