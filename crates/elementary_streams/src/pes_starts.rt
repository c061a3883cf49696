//! Where the payloads of audio PES packets begin, with their times on one axis (ISO/IEC 13818-1, 2.4.3.7).
ghost use Rattle.std.specs.Prelude.{◌≡◌, ◌≤◌, ◌<◌, ◌^◌, length, All, IfOk, IfSome, unwrap_or, pos, neg_ℤ, ◌≤ℤ◌};
ghost use Rattle.pes_units.specs.Times.{decoding_time};
ghost use Rattle.elementary_streams.specs.Audio.{IsOnAxis, AreStartsOf};
ghost use Rattle.elementary_streams.specs.NearTimes.{IsNear, AreNear};

use crate::pes_packets::PlacedPacket;
use audio_frames::PesStart;
use pes_units::{Times, unwrap_time};
use std::alloc::{AllocError, Global};

/// PES packets of a carried stream, at most. Each may be half a round of the clock later than the one before, and the times of all
/// are numbers of 64 bits in ticks.
pub const PES_PACKETS_MOST: usize = 4_000_000;

/// A time on a program's axis, in units of 1/90,000 s.
#[derive(Clone, Copy)]
pub struct AxisTime {
    pub time: i64,
}

impl AxisTime {
    /// The time that a field of 33 bits states, on the axis's first round.
    pub fn of(value: u64) -> AxisTime
        requires { value < 2 ^ 33 }
        ensures time { result.time ≡ pos value }
        ensures near { IsNear 0 result.time }
    {
        AxisTime { time: value as i64 }
    }

    /// The time of a PES packet, or this one where it has none.
    fn moved_to(self, start: &PesStart) -> AxisTime
        ensures { result.time ≡ unwrap_or start.now.time self.time }
    {
        match start.time {
            Some(time) => AxisTime { time },
            None => self,
        }
    }
}

/// Where the payload of each PES packet begins, with its time on the axis of the last time before it; the first one is
/// placed behind `first`. Times are in units of 1/90,000 s. The error is want of memory.
pub fn audio_starts(
    alloc: Global,
    packets: &[PlacedPacket],
    first: &AxisTime,
) -> Result<Vec<PesStart>, AllocError>
    requires few { length packets.now ≤ PES_PACKETS_MOST }
    requires first { IsNear 0 first.now.time }
    requires times { All (λ packet. IfSome (decoding_time packet.header.times) (λ time. time < 2 ^ 33)) packets.now }
    ensures starts { IfOk result (λ starts. AreStartsOf first.now.time packets.now starts.items) }
    ensures near { IfOk result (λ starts. AreNear PES_PACKETS_MOST starts.items) }
{
    let mut starts = Vec::new(alloc);
    let mut before = *first;
    for packet in packets {
        let start = start_behind(&before, packet);
        starts.push(start)?;
        before = before.moved_to(&start);
    }
    Ok(starts)
}

/// Where the payload of a PES packet begins, with its time behind the last one before it.
fn start_behind(before: &AxisTime, packet: &PlacedPacket) -> PesStart
    requires low { neg_ℤ (pos (2 ^ 54)) ≤ℤ before.now.time }
    requires high { before.now.time ≤ℤ pos (2 ^ 54) }
    requires time { IfSome (decoding_time packet.now.header.times) (λ time. time < 2 ^ 33) }
    ensures at { result.at ≡ packet.now.from }
    ensures time { IsOnAxis before.now.time (decoding_time packet.now.header.times) result.time }
{
    let time = match decoding_time(packet.header.times) {
        Some(value) => Some(unwrap_time(before.time, value)),
        None => None,
    };
    PesStart {
        at: packet.from,
        time,
    }
}

/// The DTS, or the PTS where none stands.
pub fn decoding_time(times: Times) -> Option<u64>
    ensures { result ≡ decoding_time times }
{
    match times.dts {
        Some(dts) => Some(dts),
        None => times.pts,
    }
}
