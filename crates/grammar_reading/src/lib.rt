//! What every reader of pictures says of the bits that it took, and the laws by which readers are put together as
//! grammars are.
//!
//! A reader's clauses are the words of specs/BitsRead: the value that was read is spelled by the bits that were taken, a
//! fault tells the refusal of the grammar, and where a value's spelling stands it is answered. specs/Several is for
//! readers that take a list one value at a time. `what_symbol` says what stands where a code of a table must stand, with
//! the reason where none does. Stands on `bit_cursor`, `prefix_codes` and `picture_grammar`.
#![tactic(auto)]

mod elements;
mod held;
mod symbol;
mod window;

pub use elements::{read_flag, read_number};
pub use held::{held_window, whole_window};
pub use symbol::{SYMBOL_MOST, SymbolFound, begins_code, what_symbol};
pub use window::BitWindow;
