//! The units of a video that are kept, with their times.
ghost use Rattle.std.specs.Prelude.{◌≡◌, ◌⊎◌, ◌+◌, ◌≤◌, ◌<◌, ◌++◌, ◌∷◌, [], length, Some, None, true, map, IfOk, MatchResult, OnOk, unwrap_or};
ghost use Rattle.program_reader.specs.declared.program_fault.ProgramFault.TheVariants.{OutOfMemory};
ghost use Rattle.program_reader.specs.KeptUnits.{row_of, kept_at};
ghost use Rattle.program_reader.specs.Units.{IsUnitsFault};
ghost use Rattle.program_reader.specs.Private.KeptUnits.{IsVideo, Fits, AreUnitsKept};
ghost use Rattle.program_reader.specs.Sizes.{AreUnitSizes};

use crate::limits::FILE_BYTES_MOST;
use crate::picture_times::stamped_pictures;
use crate::program_fault::ProgramFault;
use crate::stamp_walk::unit_times;
use crate::timed_picture::{Role, TimedPicture};
use crate::unit_picture::{TimedUnit, unit_picture};
use crate::unit_sizes::{SizesWanted, UnitSizes};
use elementary_streams::TakenPackets;
use pes_units::Times;
use std::alloc::{AllocError, Global};
use version_maker::Ladder;
use version_table::limits::VERSIONS_MOST;

/// A unit that is kept: where it stands in the video, the times of its PES header, its decoding time in ticks, its
/// picture_coding_type and what it is of its coded frame.
#[derive(Clone, Copy)]
pub struct KeptUnit {
    pub begin: u64,
    pub end: u64,
    pub times: Times,
    pub ticks: i64,
    pub kind: u8,
    pub role: Role,
}

/// The units that are kept.
#[derive(Drop)]
pub struct KeptUnits {
    pub units: Vec<KeptUnit>,
    /// The pictures of the first and of the last one.
    pub first: Option<TimedPicture>,
    pub last: Option<TimedPicture>,
    /// How many are dropped at the end.
    pub dropped: u32,
}

/// Keeps the units of a video that stand at these places, in order: all, but a last one that breaks a rule of headers or
/// pictures. Where the sizes of their versions are wanted, these are put into `sizes`. An error is the first refusal of the first unit
/// that is refused.
pub fn keep_units(
    alloc: Global,
    video: &TakenPackets,
    cuts: &[(u64, u64)],
    wanted: &SizesWanted<'_>,
    sizes: &mut Vec<UnitSizes>,
) -> Result<KeptUnits, ProgramFault>
    requires video { IsVideo video.now }
    requires few { length cuts.now ≤ FILE_BYTES_MOST + 1 }
    requires fits { Fits (length video.now.payload.items) 0 cuts.now }
    requires coarser { length wanted.now.coarser.now < VERSIONS_MOST }
    requires none { sizes.old.items ≡ [] }
    ensures kept { MatchResult result (AreUnitsKept video.now.payload.items video.now.packets.items cuts.now)
        (λ fault. (fault ≡ OutOfMemory) ⊎ IsUnitsFault video.now.payload.items video.now.packets.items cuts.now fault) }
    ensures sizes { IfOk result (λ kept. wanted.now.are_wanted ≡ true →
        AreUnitSizes video.now.payload.items wanted.now.coarser.now None (map kept_at kept.units.items) sizes.new.items) }
{
    let es = video.payload.as_slice();
    let stamps = stamped_pictures(alloc, es, video.packets.as_slice())?;
    let mut left = stamps.as_slice();
    let mut kept = KeptUnits::new(alloc);
    let mut ladder = Ladder::new();
    for at in 0..cuts.len() {
        let (begin, end) = cuts[at];
        let found = unit_times(es, left, begin, end);
        left = found.left;
        let unit = TimedUnit {
            begin,
            end,
            times: found.times,
            is_last: at + 1 == cuts.len(),
        };
        match unit_picture(
            alloc,
            &es[begin as usize..end as usize],
            &unit,
            kept.last.as_ref(),
            wanted,
            sizes,
            &mut ladder,
        ) {
            Ok(Some(picture)) => kept.add(&unit, &picture)?,
            Ok(None) => {
                kept.dropped = 1;
                return Ok(kept);
            }
            Err(fault) => return Err(fault),
        }
    }
    Ok(kept)
}

impl KeptUnits {
    /// None are kept.
    pub fn new(alloc: Global) -> Self
        ensures units { result.units.items ≡ [] }
        ensures first { result.first ≡ None }
        ensures last { result.last ≡ None }
        ensures dropped { result.dropped ≡ 0 }
    {
        KeptUnits {
            units: Vec::new(alloc),
            first: None,
            last: None,
            dropped: 0,
        }
    }

    /// Keeps one more unit.
    pub fn add(&mut self, unit: &TimedUnit, picture: &TimedPicture) -> Result<(), AllocError>
        ensures units { OnOk result (self.new.units.items ≡ self.old.units.items ++ row_of (unit.now.begin, unit.now.end) picture.now ∷ []) }
        ensures first { OnOk result (self.new.first ≡ Some (unwrap_or self.old.first picture.now)) }
        ensures last { OnOk result (self.new.last ≡ Some picture.now) }
        ensures dropped { OnOk result (self.new.dropped ≡ self.old.dropped) }
    {
        self.units.push(KeptUnit {
            begin: unit.begin,
            end: unit.end,
            times: picture.times,
            ticks: picture.ticks,
            kind: picture.coding.kind,
            role: picture.role,
        })?;
        self.first = Some(self.first.unwrap_or(*picture));
        self.last = Some(*picture);
        Ok(())
    }
}
