//! Macroblocks and slices are written (ISO/IEC 13818-2, 6.2.4 and 6.2.5).
//!
//! `write_macroblock` and `write_slice` put the written spelling of a part into a `BitWriter`, for each part that some bits
//! spell by the grammar of `picture_grammar`: the tables' code wherever there is one, and nothing else. What is written is
//! read as that part again. `write_slice_head` puts what stands in a slice before its macroblocks, for callers that write
//! one macroblock after another. `macroblock_bits` counts the bits that a macroblock is written in; `head_bits` and
//! `motion_and_dc_bits` those of its parts but for the other coefficients. No call takes memory. Stands on `block_coeffs`,
//! `bit_cursor`, `prefix_codes`, `syntax_types` and `picture_grammar`, with the laws of `picture_laws`.
#![tactic(auto)]

mod bit_counts;
mod block_counts;
mod head_counts;
mod increment;
mod macroblock;
mod modes;
mod slice;
mod vector_counts;
mod vectors;

pub use bit_counts::{macroblock_bits, motion_and_dc_bits};
pub use head_counts::{head_bits, increment_bits, kind_bits, pattern_bits};
pub use macroblock::write_macroblock;
pub use slice::{write_slice, write_slice_head};
