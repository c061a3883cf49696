//! PES headers both ways, and their times on one axis (ISO/IEC 13818-1, 2.4.3.6 and 2.4.3.7).
//!
//! `PesHeader::read` answers the header that bytes begin with, or the first fault that they have. `write_video_header`
//! makes the header of a video packet, which is read as the same times. `unwrap_time` places a time of 33 bits on the
//! axis of the time before it. The definition of the PES packets of a PID stands here too, for the crates that read
//! streams. No call takes memory. Stands on the definitions of bit_lists.
#![tactic(auto)]

pub mod laws;
mod pes_fault;
mod pes_header;
mod time_axis;
mod times;
mod video_header;

pub use pes_fault::PesFault;
pub use pes_header::PesHeader;
pub use time_axis::unwrap_time;
pub use times::Times;
pub use video_header::{MOST_HEADER_BYTES, write_video_header};
