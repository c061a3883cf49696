//! Tests of `certificate_checker`: certificates with each fault, and without one.
//!
//! They stand in a crate of their own, so that nothing below is proved again for them. Stands on `certificate_checker`.
#![tactic(auto)]

#[cfg(test)]
mod tests;
