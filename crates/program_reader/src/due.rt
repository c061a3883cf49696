//! When the units and audio packets of a program are due.
ghost use Rattle.std.specs.Prelude.{◌≡◌, ◌<◌, ◌^◌, ◌∷◌, [], map, All, IfOk};
ghost use Rattle.program_reader.specs.Audio.{IsDue};
ghost use Rattle.program_reader.specs.Programs.{IsBase};
ghost use Rattle.elementary_streams.specs.NearTimes.{IsTime};
ghost use Rattle.program_reader.specs.Dues.{AreDueUnits, frame_times, IsDueUnit, IsTimeFrom, Lowers};

use crate::kept_units::KeptUnit;
use crate::program::UnitSource;
use audio_frames::Frame;
use elementary_streams::ReadStream;
use list_types::{ListOf, OutOfMemory};
use std::alloc::Global;
use stream_constants::clock::TICKS_PER_TIME_UNIT;

/// Ticks in which the 33 bits of a time go round once.
const CLOCK_ROUND: i64 = TICKS_PER_TIME_UNIT as i64 * (1 << 33);

/// The earliest time of a program, in ticks on its axis, and when it is due.
#[derive(Clone, Copy)]
pub struct DueClock {
    pub earliest: i64,
    pub start: u64,
}

impl DueClock {
    /// When a time on the program's axis is due, in ticks.
    pub fn due(&self, time: i64) -> u64
        requires start { self.now.start < 2 ^ 50 }
        requires earliest { IsTime self.now.earliest }
        requires time { IsTimeFrom self.now.earliest time }
        ensures { IsDue self.now.start self.now.earliest time result }
    {
        self.start + time.abs_diff(self.earliest)
    }

    /// The program's base: the earliest time less the time at which it is due, modulo the round of the clock.
    pub fn base(&self) -> u64
        requires start { self.now.start < 2 ^ 50 }
        requires earliest { IsTime self.now.earliest }
        ensures { IsBase self.now.start self.now.earliest result }
    {
        (self.earliest - self.start as i64).rem_euclid(CLOCK_ROUND) as u64
    }
}

/// A unit with its due time.
fn due_unit(unit: &KeptUnit, clock: &DueClock) -> UnitSource
    requires start { clock.now.start < 2 ^ 50 }
    requires earliest { IsTime clock.now.earliest }
    requires time { IsTimeFrom clock.now.earliest unit.now.ticks }
    ensures { IsDueUnit clock.now.start clock.now.earliest unit.now result }
{
    UnitSource {
        begin: unit.begin,
        end: unit.end,
        times: unit.times,
        due: clock.due(unit.ticks),
        kind: unit.kind,
        role: unit.role,
    }
}

/// Units with their due times.
pub fn due_units(
    alloc: Global,
    units: &[KeptUnit],
    clock: &DueClock,
) -> Result<ListOf<UnitSource>, OutOfMemory>
    requires start { clock.now.start < 2 ^ 50 }
    requires earliest { IsTime clock.now.earliest }
    requires times { All (λ unit. IsTimeFrom clock.now.earliest unit.ticks) units.now }
    ensures { IfOk result (AreDueUnits clock.now.start clock.now.earliest units.now) }
{
    let mut sources = ListOf::new(alloc);
    for unit in units {
        sources.push(due_unit(unit, clock))?;
    }
    Ok(sources)
}

/// The earliest of some times, in ticks.
#[derive(Clone, Copy)]
pub struct EarliestTime {
    pub ticks: i64,
}

impl EarliestTime {
    /// The earliest of this time and those of units.
    pub fn of_units(self, units: &[KeptUnit]) -> EarliestTime
        ensures { Lowers (map (λ unit. unit.ticks) units.now) self.ticks result.ticks }
    {
        let mut earliest = self;
        for unit in units {
            earliest = earliest.of_unit(unit);
        }
        earliest
    }

    /// The earliest of this time and those of frames.
    pub fn of_frames(self, frames: &[Frame]) -> EarliestTime
        ensures { Lowers (map (λ frame. frame.time) frames.now) self.ticks result.ticks }
    {
        let mut earliest = self;
        for frame in frames {
            earliest = earliest.of_frame(frame);
        }
        earliest
    }

    /// The earliest of this time and those of the frames of streams.
    pub fn of_streams(self, streams: &[ReadStream]) -> EarliestTime
        ensures { Lowers (frame_times streams.now) self.ticks result.ticks }
    {
        let mut earliest = self;
        for stream in streams {
            earliest = earliest.of_frames(stream.frames.as_slice());
        }
        earliest
    }

    /// The clock by which this time is due at `start`.
    pub fn clock(self, start: u64) -> DueClock
        ensures start { result.start ≡ start }
        ensures earliest { result.earliest ≡ self.ticks }
    {
        DueClock {
            earliest: self.ticks,
            start,
        }
    }

    /// The earlier of this time and that of a unit.
    fn of_unit(self, unit: &KeptUnit) -> EarliestTime
        ensures { Lowers (unit.now.ticks ∷ []) self.ticks result.ticks }
    {
        if unit.ticks < self.ticks {
            EarliestTime { ticks: unit.ticks }
        } else {
            self
        }
    }

    /// The earlier of this time and that of a frame.
    fn of_frame(self, frame: &Frame) -> EarliestTime
        ensures { Lowers (frame.now.time ∷ []) self.ticks result.ticks }
    {
        if frame.time < self.ticks {
            EarliestTime { ticks: frame.time }
        } else {
            self
        }
    }
}
