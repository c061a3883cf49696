//! Tests of `bound_certificate`: certificates both ways, with bytes worked out by hand.
//!
//! They stand in a crate of their own, so that nothing below is proved again for them. Stands on `bound_certificate`.
#![tactic(auto)]

#[cfg(test)]
mod tests;
