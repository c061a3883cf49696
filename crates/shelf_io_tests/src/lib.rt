//! Tests of shelves, sources and sinks, in memory and over real files.
//!
//! They stand in a crate of their own, so that a change here proves nothing below again. Stands on `shelf_io`.
#![tactic(auto)]

#[cfg(test)]
mod tests;
