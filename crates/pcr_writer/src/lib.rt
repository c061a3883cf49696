//! Packets that carry a program clock reference and nothing else (ISO/IEC 13818-1, 2.4.2.2, 2.4.3.4 and 2.4.3.5).
//!
//! `pcr_packet` makes the 188 bytes of such a packet in a stream of constant rate, with the time at which the byte arrives
//! that ends the base of its PCR. It takes no memory. Stands on `ts_packets`.
#![tactic(auto)]

mod pcr;

pub use pcr::{PCR_MODULUS, pcr_packet};
