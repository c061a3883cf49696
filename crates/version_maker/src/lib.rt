//! All versions of a coded picture, made from the bytes of its unit (ISO/IEC 13818-2, 6.2).
//!
//! A unit's versions are the unit itself without its vbv_delay, and its picture requantised more coarsely by each of some
//! ratios, in their order. `versions_of` gives them all with their distortions, `version_of` the bytes of one of them, and
//! `sizes_of` how long each is and its distortion, which `size_picture` says beside the headers, with a `Ladder` that is lent
//! from picture to picture. Each refuses a unit as `read_picture` of `picture_reader` does. `first_version_of` gives the bytes
//! of version 0 of a unit that is known to spell a picture. Stands on `picture_reader`, `requantiser`, `picture_heads` and `picture_writer`.
#![tactic(auto)]

mod fault;
mod kind_bits;
pub mod laws;
mod lent;
mod limits;
mod shared_bits;
mod sizes;
mod slice_count;
mod slice_read;
mod slice_version;
mod stayed_bits;
mod unit_sizes;
mod version;
mod version_write;
mod versions;

pub use fault::want_of_memory;
pub use limits::UNIT_BYTES_MOST;
pub use picture_reader::PictureFault;
pub use requantiser::Ladder;
pub use sizes::{SizedPicture, size_picture, sizes_of};
pub use version::{UnitVersion, VersionSize};
pub use versions::{first_version_of, version_of, versions_of};
