ghost use Rattle.std.specs.Prelude.{◌≡◌, true, false, ◌+◌, ◌^◌, ◌<◌, ◌≤◌, length, IfOk, IfErr};
ghost use Rattle.pes_units.specs.Times.{are_times_sound, has_markers, pes_header_data_length, time_at, times_of};
ghost use Rattle.pes_units.specs.VideoHeader.{time_bytes};

use crate::pes_fault::PesFault;
use crate::pes_header::FIRST_BYTES;

/// Length of the field of a time in bytes.
pub(crate) const TIME_BYTES: usize = 5;

/// The marker bits of a time's field as a number of 40 bits.
const MARKER_BITS: u64 = 1 << 32 | 1 << 16 | 1;

/// The highest part of a time: 3 bits.
const HIGH_PART: u64 = 0x7;

/// A lower part of a time: 15 bits.
const LOW_PART: u64 = 0x7FFF;

/// The times of a PES header in units of 1/90,000 s, 33 bits each (ISO/IEC 13818-1, 2.4.3.7).
#[derive(Clone, Copy, Debug, PartialEq, Eq)]
pub struct Times {
    /// The presentation time stamp, where one stands.
    pub pts: Option<u64>,
    /// The decoding time stamp, where one stands: only beside a PTS.
    pub dts: Option<u64>,
}

impl Times {
    /// The times of the header that the bytes begin with. The error is BadMarker.
    #[tactic(auto, using(crate::proofs::Elements::elements))]
    pub(crate) fn read(bytes: &[u8]) -> Result<Times, PesFault>
        requires first { 9 ≤ length bytes.now }
        requires whole { 9 + pes_header_data_length bytes.now ≤ length bytes.now }
        ensures ok { IfOk result (λ times. (are_times_sound bytes.now ≡ true) × (times ≡ times_of bytes.now)) }
        ensures err { IfErr result (λ fault. (fault ≡ PesFault.BadMarker) × (are_times_sound bytes.now ≡ false)) }
    {
        let room = bytes[8] as usize;
        match bytes[7] >> 6 {
            0b00 => Ok(Times {
                pts: None,
                dts: None,
            }),
            0b10 if room >= TIME_BYTES => Ok(Times {
                pts: Some(read_time(bytes, FIRST_BYTES)?),
                dts: None,
            }),
            0b11 if room >= 2 * TIME_BYTES => Ok(Times {
                pts: Some(read_time(bytes, FIRST_BYTES)?),
                dts: Some(read_time(bytes, FIRST_BYTES + TIME_BYTES)?),
            }),
            _ => Err(PesFault::BadMarker),
        }
    }
}

/// The time in the five bytes from a place on. The error is BadMarker.
fn read_time(bytes: &[u8], place: usize) -> Result<u64, PesFault>
    requires { place + 5 ≤ length bytes.now }
    ensures ok { IfOk result (λ time. (has_markers bytes.now place ≡ true) × (time ≡ time_at bytes.now place)) }
    ensures err { IfErr result (λ fault. (fault ≡ PesFault.BadMarker) × (has_markers bytes.now place ≡ false)) }
{
    let word = u64::from_be_bytes([
        0,
        0,
        0,
        bytes[place],
        bytes[place + 1],
        bytes[place + 2],
        bytes[place + 3],
        bytes[place + 4],
    ]);
    if word & MARKER_BITS != MARKER_BITS {
        return Err(PesFault::BadMarker);
    }
    Ok((word >> 33 & HIGH_PART) << 30 | (word >> 17 & LOW_PART) << 15 | word >> 1 & LOW_PART)
}

/// The five bytes of a time behind the four bits that say which it is.
pub(crate) fn time_field(which: u8, time: u64) -> [u8; 5]
    requires which { which < 4 }
    requires in_range { time < 2 ^ 33 }
    ensures { result ≡ time_bytes which time }
{
    let word = u64::from(which) << 36
        | (time >> 30) << 33
        | 1 << 32
        | (time >> 15 & LOW_PART) << 17
        | 1 << 16
        | (time & LOW_PART) << 1
        | 1;
    let [_, _, _, a, b, c, d, e] = word.to_be_bytes();
    [a, b, c, d, e]
}
