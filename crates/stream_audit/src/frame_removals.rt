//! When a decoder removes the frames of an audio stream, by the clock of the file (ISO/IEC 13818-1, 2.4.2.3).
ghost use Rattle.std.specs.Prelude.{◌≡◌, ◌≤◌, ◌<◌, ◌+◌, ◌^◌, All, IfOk, false, map, pos, true, ◌+ℤ◌, ◌-ℤ◌, ◌*◌, ◌/◌, ◌%◌, ◌≤ℤ◌};
ghost use Rattle.std.specs.List.{sum_by};
ghost use Rattle.stream_constants.specs.declared.clock.TheConstants.{TICKS_PER_TIME_UNIT};
ghost use Rattle.pcr_writer.specs.declared.pcr.TheConstants.{PCR_MODULUS};
ghost use Rattle.stream_audit.specs.Removals.{first_due, first_time, removed_at};
ghost use Rattle.stream_audit.specs.Private.FrameRemovals.{AreChained, Climb, CountsHeaders, FallsWithin, IsOffset, frame_removal};
ghost use Rattle.elementary_streams.specs.NearTimes.{IsTime};

use crate::clock::{behind, ticks_from};
use crate::kept_units::KeptUnits;
use crate::removals::removed_at;
use audio_frames::Frame;
use elementary_streams::PlacedPacket;
use list_types::{ListOf, OutOfMemory};
use pcr_writer::PCR_MODULUS;
use std::alloc::Global;
use stream_constants::clock::TICKS_PER_TIME_UNIT;
use tstd_model::Removal;

/// The latest due of a frame, in ticks: five years.
const DUE_MOST: i64 = 1 << 52;

/// The clock by which the frames of a program's audio streams are removed.
#[derive(Clone, Copy)]
pub struct FrameClock {
    /// What the file's clock shows when its first byte comes.
    zero: u64,
    /// What the program's clock shows when a unit that is due at 0 is removed.
    base: u64,
    /// The due of the first unit, less the time that it states, in ticks.
    offset: i64,
}

impl FrameClock {
    /// That of a program whose units these are, where the file's clock begins at `zero`.
    pub fn new(zero: u64, kept: &KeptUnits) -> FrameClock
        requires { first_due kept.now ≤ 2 ^ 52 }
        ensures zero { result.zero ≡ zero }
        ensures base { result.base ≡ kept.now.base }
        ensures offset { result.offset ≡ pos (first_due kept.now) -ℤ pos (TICKS_PER_TIME_UNIT * first_time kept.now) }
        ensures fits { IsOffset result.offset }
    {
        let due = first_due(kept);
        let time = time_shown(kept.base, due);
        FrameClock {
            zero,
            base: kept.base,
            offset: due as i64 - (TICKS_PER_TIME_UNIT * time) as i64,
        }
    }

    /// Whether one of some frames is due later than 2^52 ticks.
    pub fn has_late(&self, frames: &[Frame]) -> bool
        requires offset { IsOffset self.now.offset }
        requires times { All (λ frame. IsTime frame.time) frames.now }
        ensures late { result ≡ true → All (λ frame. (frame.time +ℤ self.now.offset) ≤ℤ pos (2 ^ 52)) frames.now → ⊥ }
        ensures in_time { result ≡ false → All (λ frame. (frame.time +ℤ self.now.offset) ≤ℤ pos (2 ^ 52)) frames.now }
    {
        for frame in frames {
            if self.is_late(frame) {
                return true;
            }
        }
        false
    }

    /// Whether a frame is.
    fn is_late(&self, frame: &Frame) -> bool
        requires offset { IsOffset self.now.offset }
        requires time { IsTime frame.now.time }
        ensures late { result ≡ true → (frame.now.time +ℤ self.now.offset) ≤ℤ pos (2 ^ 52) → ⊥ }
        ensures in_time { result ≡ false → (frame.now.time +ℤ self.now.offset) ≤ℤ pos (2 ^ 52) }
    {
        frame.time + self.offset > DUE_MOST
    }

    /// The ticks from the file's first byte on up to a frame's time.
    fn removed(&self, frame: &Frame) -> u64
        requires fits { FallsWithin (frame.now.time +ℤ self.now.offset) }
        ensures value { result ≡ removed_at self.now.zero self.now.base (frame.now.time +ℤ self.now.offset) }
        ensures most { result ≤ 2 ^ 53 }
    {
        removed_from(self.zero, self.base, frame.time + self.offset)
    }
}

/// The due of the first unit.
pub fn first_due(kept: &KeptUnits) -> u64
    ensures { result ≡ first_due kept.now }
{
    match kept.units.as_slice().first() {
        Some(unit) => unit.due,
        None => 0,
    }
}

/// What a program's clock shows at a due, in units of 1/90,000 s.
pub fn time_shown(base: u64, due: u64) -> u64
    requires { due ≤ 2 ^ 52 }
    ensures value { result ≡ (base + due) % PCR_MODULUS / TICKS_PER_TIME_UNIT }
    ensures few { result < 2 ^ 33 }
{
    behind(base, due) / TICKS_PER_TIME_UNIT
}

/// The ticks from the file's first byte on up to a time that is due so many ticks behind a program's base, or before it; a time before
/// the first byte counts as that byte's.
fn removed_from(zero: u64, base: u64, due: i64) -> u64
    requires { FallsWithin due }
    ensures value { result ≡ removed_at zero base due }
    ensures most { result ≤ 2 ^ 53 }
{
    let ticks = due.unsigned_abs();
    if due >= 0 {
        return removed_at(zero, base, ticks);
    }
    let ahead = ticks_from(zero, base);
    if ahead < PCR_MODULUS / 2 {
        ahead.saturating_sub(ticks)
    } else {
        0
    }
}

/// The PES packets of an audio stream whose headers haven't been counted with a frame.
#[derive(Drop)]
struct HeadersAhead<'a> {
    packets: &'a [PlacedPacket],
}

impl<'a> HeadersAhead<'a> {
    /// The header bytes of the next ones whose payloads begin before a place; they are passed.
    fn count_before(&mut self, end: u64) -> u64
        requires { sum_by (λ packet. packet.header.len) self.old.packets.now < 2 ^ 32 }
        ensures { CountsHeaders end self.old.packets.now result self.new.packets.now }
    {
        let mut bytes = 0;
        while let Some((packet, later)) = self.packets.split_first() {
            if packet.from >= end {
                break;
            }
            bytes += u64::from(packet.header.len);
            self.packets = later;
        }
        bytes
    }
}

/// The removals of an audio stream's frames, each with the headers of the PES packets whose payloads begin in it, by its time. The
/// error is want of memory.
pub fn frame_removals(
    alloc: Global,
    clock: &FrameClock,
    packets: &[PlacedPacket],
    frames: &[Frame],
) -> Result<ListOf<Removal>, OutOfMemory>
    requires chained { AreChained 0 frames.now }
    requires climb { Climb 0 packets.now }
    requires headers { sum_by (λ packet. packet.header.len) packets.now < 2 ^ 31 }
    requires lengths { All (λ frame. frame.len < 2 ^ 31) frames.now }
    requires places { All (λ frame. frame.at < 2 ^ 62) frames.now }
    requires fall { All (λ frame. FallsWithin (frame.time +ℤ clock.now.offset)) frames.now }
    ensures removals { IfOk result (λ removals. removals ≡ map (frame_removal clock.now packets.now) frames.now) }
    ensures fit { IfOk result (λ removals. All (λ removal. removal.due ≤ 2 ^ 53) removals) }
{
    let mut headers = HeadersAhead { packets };
    let mut removals = ListOf::new(alloc);
    for frame in frames {
        let bytes = frame.len + headers.count_before(frame.at + frame.len);
        removals.push(Removal {
            due: clock.removed(frame),
            bytes: bytes as u32,
        })?;
    }
    Ok(removals)
}
