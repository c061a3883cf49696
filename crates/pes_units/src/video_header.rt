ghost use Rattle.std.specs.Prelude.{◌≡◌, ◌<◌, ℕ, List, true, ◌++◌, length, take, drop};
ghost use Rattle.pes_units.specs.PesHeader.{IsPesHeader};
ghost use Rattle.pes_units.specs.VideoHeader.{AreInRange, IsBesidePts, first_bytes, written_dts, written_fields, written_pes_header};

use crate::pes_header::FIRST_BYTES;
use crate::times::{TIME_BYTES, Times, time_field};

/// Length in bytes of the longest header that is written.
pub const MOST_HEADER_BYTES: usize = 19;

/// Length in bytes of a header with a PTS alone.
const PTS_HEADER_BYTES: usize = 14;

/// `stream_id` of the first video stream.
const VIDEO_STREAM_ID: u8 = 0xE0;

/// Byte 6: the bits 10, no scrambling and no flag.
const FIXED_BYTE: u8 = 0x80;

/// Writes the header of a video PES packet: stream id E0, no stated length, and the times, of which the DTS stands only
/// where it differs from the PTS. Gives the header's length, which is 9, 14 or 19 bytes; the bytes behind it stay as
/// they were. The times are below 2^33, and a DTS stands only beside a PTS.
pub fn write_video_header(times: &Times, into: &mut [u8; MOST_HEADER_BYTES]) -> u8
    requires in_range { AreInRange times.now }
    requires beside { IsBesidePts times.now }
    ensures bytes { into.new ≡ written_pes_header times.now ++ drop result into.old }
    ensures length { result ≡ length (written_pes_header times.now) }
    // With any payload behind it, it is read as the same times.
    ensures header { (payload : List ℕ) → 0 < length payload → IsPesHeader true (written_fields times.now) (take result into.new ++ payload) }
{
    match (times.pts, dts_to_write(times)) {
        (None, _) => {
            into[..FIRST_BYTES].copy_from_slice(&first_bytes(0b00, 0));
            FIRST_BYTES as u8
        }
        (Some(pts), None) => {
            into[..FIRST_BYTES].copy_from_slice(&first_bytes(0b10, TIME_BYTES as u8));
            into[FIRST_BYTES..PTS_HEADER_BYTES].copy_from_slice(&time_field(0b0010, pts));
            PTS_HEADER_BYTES as u8
        }
        (Some(pts), Some(dts)) => {
            into[..FIRST_BYTES].copy_from_slice(&first_bytes(0b11, 2 * TIME_BYTES as u8));
            into[FIRST_BYTES..PTS_HEADER_BYTES].copy_from_slice(&time_field(0b0011, pts));
            into[PTS_HEADER_BYTES..].copy_from_slice(&time_field(0b0001, dts));
            MOST_HEADER_BYTES as u8
        }
    }
}

/// The bytes before the times.
fn first_bytes(flags: u8, data_length: u8) -> [u8; FIRST_BYTES]
    requires { flags < 4 }
    ensures { result ≡ first_bytes flags data_length }
{
    [
        0x00,
        0x00,
        0x01,
        VIDEO_STREAM_ID,
        0x00,
        0x00,
        FIXED_BYTE,
        flags << 6,
        data_length,
    ]
}

/// The DTS where it differs from the PTS.
fn dts_to_write(times: &Times) -> Option<u64>
    requires { IsBesidePts times.now }
    ensures { result ≡ written_dts times.now.pts times.now.dts }
{
    if times.dts == times.pts {
        None
    } else {
        times.dts
    }
}
