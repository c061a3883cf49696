//! Tests of `prefix_codes`: codes of each table against the bits that ISO/IEC 13818-2, Annex B prints, both ways.
//!
//! They stand in a crate of their own, so that nothing below is proved again for them. Stands on `prefix_codes`.
#![tactic(auto)]

#[cfg(test)]
mod tests;
