//! Bits of numbers and of bytes, and payloads of transport packets, as definitions and lemmas: the crate has no code.
//!
//! A bit is the number 0 or 1, and the first bit of a list is the most significant one (bslbf and uimsbf of ISO/IEC
//! 13818-1, 2.2.6, and 13818-2, 5.2). Formats are said in these words, by all crates that read or write them. Stands
//! on the standard library alone. A payload is a start flag and bytes, with the place of the packet that carries them (13818-1, 2.4.3.3):
//! sections and PES packets are both read from lists of them.
#![tactic(auto)]
