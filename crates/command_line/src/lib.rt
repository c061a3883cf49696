//! What the program does with its words: a command run over the files of the working folder, with a report line on standard output,
//! and a sentence on standard error where a reader wants one.
//!
//! All that it promises stands on `remux_core`'s `run`: the exit status is the code of the status that `run` ends with. The sentences are
//! those of `sentences`. On a terminal it tells how far a command is, by a shelf that sees what is read and written. Stands on `remux_core`,
//! `command_words`, `sentences` and `shelf_io`.
#![tactic(auto)]

mod exit;
mod heard;
mod names;
mod program;
mod progress;
mod watched;

pub use crate::exit::exit_status;
pub use crate::names::share_one_file;
pub use crate::program::command;
pub use crate::progress::Progress;
