//! The headers of a coded picture (ISO/IEC 13818-2, 6.2.2 and 6.2.3).
//!
//! Each reader takes one header from a `BitReader`, behind its start code, as the grammar of `picture_grammar` has it. It
//! answers what the bits spell, or the kind and the place of their refusal. A number that the end cuts is refused by a rule
//! that no number with these first bits passes, and is the end only where one does. No call takes memory. Stands on
//! `bit_cursor`, `grammar_reading`, `picture_grammar`, `quant_math` and `syntax_types`.
#![tactic(auto)]

mod code;
mod extension;
mod extensions;
mod fault;
mod fields;
mod group;
mod head;
mod limit;
mod matrix;
mod part;
mod parts;
mod picture;
mod repeated;
mod sequence;
mod stands;
mod unread;
mod why;
mod zeros;

pub use fault::HeadFault;
pub use head::{HeadEnd, Headers, read_head, read_headers};

#[cfg(test)]
mod head_tests;
#[cfg(test)]
mod tests;
