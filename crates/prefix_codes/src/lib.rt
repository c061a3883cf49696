//! The variable length codes of a picture, the tables of ISO/IEC 13818-2, Annex B (B-1 to B-4, B-9, B-10 and B-12 to B-15).
//!
//! `find` reads the code at the front of some bits (`find_whole` where a whole window is known), and `code_of` gives the code
//! that a symbol is written by (`coefficient_code` that of a run and a level, `code_bits` its length alone). A table is a list
//! of pairs of a symbol and a code, and no code of a table begins another one of it, so each has one answer. Each is a look-up
//! with no search, and takes no memory. Stands on `bit_lists`, which has the words on bits.
#![tactic(auto)]

mod code;
mod lookup;
pub mod symbol;
mod table_name;
mod tables;

pub use code::Code;
pub use lookup::{WINDOW_BITS, code_bits, code_of, coefficient_code, find, find_whole};
pub use table_name::TableName;
