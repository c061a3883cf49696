//! Tests of the first bytes of a file as a source, over shelves in memory.
//!
//! They stand in a crate of their own, so that a change here proves nothing below again. Stands on `file_pass` and `shelf_kinds`.
#![tactic(auto)]

#[cfg(test)]
mod tests;
