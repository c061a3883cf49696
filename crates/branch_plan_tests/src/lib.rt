//! Tests of `branch_plan`: plans of tables worked out by hand.
//!
//! They stand in a crate of their own, so that nothing below is proved again for them. Stands on `branch_plan`.
#![tactic(auto)]

#[cfg(test)]
mod tests;
