//! Blocks of coefficients both ways (ISO/IEC 13818-2, 6.2.6 and 7.2).
//!
//! `read_block` reads a block from a `BitReader`: it answers the block that the bits spell, or the kind and the place of
//! their refusal, each exactly where the grammar of `picture_grammar` has it. The next nine bits tell most
//! coefficients by one look-up; only where they don't, a window of bits is taken. `read_block_into` reads into a block that
//! is lent. `write_block` puts a block's written spelling into a `BitWriter`, which is read back as that block, and
//! `write_code` the code of one symbol. No call takes memory. Stands on `bit_cursor`, `prefix_codes`, `syntax_types`,
//! `picture_grammar` and `grammar_reading`.
#![tactic(auto)]

mod coefficient_table;
mod cut;
mod dc_standing;
mod fault;
mod reading;
mod short_codes;
mod standing;
mod why;
mod written;
mod written_codes;

pub use fault::BlockFault;
pub use reading::{read_block, read_block_into};
pub use written::{write_block, write_code};
