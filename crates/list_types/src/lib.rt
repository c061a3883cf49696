//! Lists and texts that contracts see as plain lists.
//!
//! A struct that holds a `ListOf<T>` is seen by contracts with a `List T` in that field, and one that holds a
//! `Text` with the list of its bytes, so definitions compare lists and never buffers, capacities or allocators.
//! Stands on the standard library alone.
#![tactic(auto)]

mod list_of;
mod out_of_memory;
mod text;

pub use list_of::ListOf;
pub use out_of_memory::OutOfMemory;
pub use text::Text;

#[cfg(test)]
mod tests;
