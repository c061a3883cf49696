//! Tests of `multiplier_search`: multipliers, windows and relaxations of tables worked out by hand.
//!
//! They stand in a crate of their own, so that nothing below is proved again for them. Stands on `multiplier_search`.
#![tactic(auto)]

#[cfg(test)]
mod tests;
