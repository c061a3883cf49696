//! Macroblocks and slices read from bits (ISO/IEC 13818-2, 6.2.4 and 6.2.5).
//!
//! `read_slice` reads a whole slice into a tree. Under it stands one loop that others may go as well: `read_slice_head`,
//! then `SliceCursor::next`, which reads one macroblock after another into one that is lent, up to the close of the slice,
//! and keeps nothing; `SliceCursor::is_closed` says whether the one that was read is the last. `read_macroblock_into` reads
//! one into a macroblock that is lent and may be used again, and `read_macroblock` gives a new one. Each answers what the
//! bits spell by the grammar of `picture_grammar`, or the kind and the place of their refusal. Only slices take memory.
//! Stands on `block_coeffs`, `grammar_reading` and `picture_laws`.
#![tactic(auto)]

mod address;
mod blocks;
mod cursor;
mod elements;
mod fault;
mod head;
mod macroblock;
mod modes;
mod motion;
mod slice;
mod why;

pub use cursor::SliceCursor;
pub use fault::SliceFault;
pub use head::{SliceHead, read_slice_head};
pub use macroblock::{read_macroblock, read_macroblock_into};
pub use slice::read_slice;
