//! Tests of `block_coeffs`: blocks read from bits, and written again, each refusal at its place.
//!
//! They stand in a crate of their own, so that nothing below is proved again for them. Stands on `block_coeffs`.
#![tactic(auto)]

#[cfg(test)]
mod tests;
#[cfg(test)]
mod written_tests;
