//! The grammar of a coded picture (ISO/IEC 13818-2, 6.2 and Annex B): which bits spell a block, a macroblock, a slice,
//! the headers and a whole unit, how each is written, and why other bits are refused.
//!
//! The crate is definitions, which every reader and writer of pictures cites, the numbers in them, and as calls what stands
//! in a macroblock and how many of them a picture has in a row and in a column. A grammar is a sequence of elements in the
//! order of the syntax tables; what it spells and what it refuses is said once, for all of them (specs/Grammar,
//! specs/Element). Stands on `syntax_types`, `prefix_codes`, `quant_math`, `bit_lists` and `stream_constants`.
#![tactic(auto)]

pub mod escape;
pub mod grid;
pub mod laws;
pub mod limits;
pub mod stands;
