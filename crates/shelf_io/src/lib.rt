//! Files and byte streams of the outside, as traits whose contracts say what each call did and why it failed.
//!
//! A `Shelf` is a set of named files, a `Source` gives bytes and a `Sink` takes them. Each may tell what it holds:
//! those in memory do, real files and standard output don't. `Failed` comes only where the object's count of faults
//! rose in that call, and `Missing` only where its count of absences rose, so every refusal has a cause that can be
//! shown; want of memory alone is free. A call that answers a fault leaves files, sinks and sources as they were.
//! `Reading` and `Writing` are one file of a shelf as a source and a sink, and pass on its contents and counts.
//! Shelves and sinks themselves, in memory and real, stand in `shelf_kinds`.
//! Stands on `list_types`.
#![tactic(auto)]

mod buffer;
mod fault;
mod reading;
mod shelf;
mod sink;
mod slice_source;
mod source;
mod vec_sink;
mod whole_file;
mod writing;

pub use buffer::{bytes_from, copy_front};
pub use fault::Fault;
pub use reading::Reading;
pub use shelf::Shelf;
pub use sink::{Sink, put_all};
pub use slice_source::SliceSource;
pub use source::{SOURCE_BYTES_MOST, Source, take_full};
pub use vec_sink::VecSink;
pub use whole_file::{PIECE_BYTES, read_file, write_file};
pub use writing::Writing;
