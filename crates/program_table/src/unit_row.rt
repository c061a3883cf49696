//! One unit of a table.
ghost use Rattle.std.specs.Prelude.{◌≡◌, ◌<◌, ◌≤◌, length, map, All};
ghost use Rattle.pes_units.specs.VideoHeader.{AreInRange, IsBesidePts, written_pes_header};
ghost use Rattle.program_table.specs.Private.Rows.{IsBounded, with_header};

use arrayvec::ArrayVec;
use pes_units::{MOST_HEADER_BYTES, Times, write_video_header};
use program_reader::limits::UNIT_WEIGHT_MOST;
use version_maker::VersionSize;
use version_table::Version;
use version_table::limits::VERSIONS_MOST;

/// Bytes of the header of a PES packet that says these times.
pub fn header_bytes(times: &Times) -> u8
    requires in_range { AreInRange times.now }
    requires beside { IsBesidePts times.now }
    ensures value { result ≡ length (written_pes_header times.now) }
    ensures few { result ≤ MOST_HEADER_BYTES }
{
    let mut header = [0; MOST_HEADER_BYTES];
    write_video_header(times, &mut header)
}

/// Versions of these sizes with a header before each, whose distortions count as much as their unit weighs.
pub fn with_headers(
    header: u8,
    weight: u32,
    sizes: &[VersionSize],
) -> ArrayVec<Version, VERSIONS_MOST>
    requires few { length sizes.now ≤ VERSIONS_MOST }
    requires bounded { All IsBounded sizes.now }
    requires weight { weight ≤ UNIT_WEIGHT_MOST }
    ensures { result.items ≡ map (with_header header weight) sizes.now }
{
    let mut versions = ArrayVec::new();
    for size in sizes {
        versions.push(weighted(header, weight, *size));
    }
    versions
}

/// A version of this size with a header before it.
fn weighted(header: u8, weight: u32, size: VersionSize) -> Version
    requires bounded { IsBounded size }
    requires weight { weight ≤ UNIT_WEIGHT_MOST }
    ensures { result ≡ with_header header weight size }
{
    Version {
        bytes: size.bytes as u32 + u32::from(header),
        distortion: size.distortion * u64::from(weight),
    }
}
