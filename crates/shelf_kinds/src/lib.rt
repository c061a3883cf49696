//! Shelves and sinks, in memory and real.
//!
//! `MemShelf` and `MemSink` fail in the calls that were named, `CalmShelf` and `ShortShelf` never; `CountSink` keeps the number of bytes
//! alone. `FileShelf` and `OutSink` are the edge to the real outside: nothing is proved of what a real file holds.
//! Stands on `shelf_io`.
#![tactic(auto)]

mod calm_shelf;
mod count_sink;
mod file_shelf;
mod file_table;
mod mem_shelf;
mod mem_sink;
mod numbered_calls;
mod out_sink;
mod short_shelf;

pub use calm_shelf::CalmShelf;
pub use count_sink::CountSink;
pub use file_shelf::FileShelf;
pub use mem_shelf::MemShelf;
pub use mem_sink::MemSink;
pub use out_sink::OutSink;
pub use short_shelf::ShortShelf;
