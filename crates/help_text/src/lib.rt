//! What the program prints for `--help`, `--help COMMAND` and `--version`, and the printing of it.
//!
//! Apart from what runs commands, so that a small program of the gate can print it.
#![tactic(auto)]

mod commands;
mod print;
mod texts;

pub use crate::commands::command_help;
pub use crate::print::told;
pub use crate::texts::{HELP, VERSION};
