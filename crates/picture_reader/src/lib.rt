//! Coded pictures read from their bytes, a unit at a time (ISO/IEC 13818-2, 6.2).
//!
//! `read_picture` gives the tree of a unit, and `check_picture` goes the same way and keeps nothing. Both answer what the
//! unit spells by the grammar of `picture_grammar`, or the kind and the place of its refusal. Under them stands one loop
//! that others may go as well: `UnitCursor` gives one slice after another, up to the end of the unit, and keeps nothing.
//! Stands on `video_headers`, `macroblock_reader` and `picture_laws`.
#![tactic(auto)]

mod coverage;
mod cursor;
mod fault;
mod head;
mod keep;
mod part;
mod picture;
mod slice;
mod unit;

pub use coverage::Span;
pub use cursor::{UnitCursor, UnitPart};
pub use fault::PictureFault;
pub use picture::{check_picture, read_picture};
pub use video_headers::Headers;
