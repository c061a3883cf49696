//! The cut of a video stream into units, each with one coded picture (ISO/IEC 13818-2, 6.2).
//!
//! `next_start_code` finds the first start code at a place or behind it (6.2.1), three bytes at a time where none can stand.
//! `find_sequence` finds the first sequence header, `find_picture` the first coded picture from one place up to another.
//! `split_units` finds where the units begin and end by start codes alone: a unit begins at the first sequence header,
//! GOP header or picture header behind a slice. What stands before the first sequence header is dropped.
//! Stands on `list_types` and `stream_constants`.
#![tactic(auto)]

mod cut_state;
mod cuts;
mod joint_code;
mod picture_finder;
mod picture_places;
mod start_code;
mod unit_cutter;
mod unit_fault;
mod units;

pub use cuts::find_sequence;
pub use picture_finder::PictureFinder;
pub use picture_places::find_picture;
pub use start_code::{StartCode, next_start_code};
pub use unit_cutter::{CutUnit, UnitCutter};
pub use unit_fault::UnitFault;
pub use units::{Units, split_units};

#[cfg(test)]
mod tests;
