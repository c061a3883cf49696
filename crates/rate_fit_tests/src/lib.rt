//! Tests of `rate_fit`: verdicts on tables, worked out by hand and by the slot rule of `tests/schedules`.
//!
//! They stand in a crate of their own, so that nothing below is proved again for them. Stands on `rate_fit`.
#![tactic(auto)]

#[cfg(test)]
mod tests;
