//! What is read of the units of a video that have passed.
ghost use Rattle.std.specs.Prelude.{◌≡◌, ℕ, ◌≤◌, ◌<◌, ◌^◌, List, [], None, length, IfSome, IfOk, MatchResult};
ghost use Rattle.es_units.specs.UnitCutter.{place_of};
ghost use Rattle.pes_units.specs.Times.{decoding_time};
ghost use Rattle.ts_demux.specs.declared.demuxed.PesUnit.{PesUnit};
ghost use Rattle.elementary_streams.specs.declared.pes_packets.PlacedPacket.{PlacedPacket};
ghost use Rattle.program_reader.specs.declared.timed_picture.TimedPicture.{TimedPicture};
ghost use Rattle.program_reader.specs.Intervals.{nearest};
ghost use Rattle.elementary_streams.specs.Packets.{joined};
ghost use Rattle.program_reader.specs.PictureTimes.{times_of_unit};
ghost use Rattle.program_reader.specs.TimesWalk.{HasPassed};
ghost use Rattle.program_reader.specs.Units.{state_behind, unit_bytes};
ghost use Rattle.program_reader.specs.VideoWalk.{Stand};
ghost use Rattle.program_reader.specs.Private.PassedVideo.{IsKeptAs, IsReadAs};
ghost use Rattle.program_reader.specs.Private.SizedUnits.{IsSizedFound};
ghost use Rattle.program_reader.specs.Private.TimedPictures.{IsPossible, IsFound, IsNotFound, LastTells};

use crate::kept_units::KeptUnits;
use crate::program_fault::ProgramFault;
use crate::timed_picture::TimedPicture;
use crate::times_walk::TimesWalk;
use crate::unit_picture::{TimedUnit, unit_picture};
use crate::unit_sizes::{SizesWanted, UnitSizes};
use crate::video_places::VideoPlaces;
use es_units::CutUnit;
use std::alloc::Global;
use version_maker::Ladder;
use version_table::limits::VERSIONS_MOST;

/// What is read of the units of a video, one behind the other.
#[derive(Drop)]
pub struct PassedUnits<'a> {
    /// Whether the sizes of their versions are wanted.
    pub wanted: SizesWanted<'a>,
    pub kept: KeptUnits,
    /// Their sizes, where they are wanted.
    pub sizes: Vec<UnitSizes>,
    times: TimesWalk,
    ladder: Ladder,
}

impl<'a> PassedUnits<'a> {
    /// None are read.
    pub fn new(alloc: Global, wanted: SizesWanted<'a>) -> Self
        ensures wanted { result.wanted ≡ wanted.entry }
        ensures units { result.kept.units.items ≡ [] }
        ensures first { result.kept.first ≡ None }
        ensures last { result.kept.last ≡ None }
        ensures dropped { result.kept.dropped ≡ 0 }
        ensures sizes { result.sizes.items ≡ [] }
        ensures passed { (places : List ℕ) (packets : List PlacedPacket) (bound : ℕ) → HasPassed places packets bound result.times }
    {
        PassedUnits {
            wanted,
            kept: KeptUnits::new(alloc),
            sizes: Vec::new(alloc),
            times: TimesWalk::new(),
            ladder: Ladder::new(),
        }
    }

    /// Reads the next unit, by where the PES packets and pictures of its video stand as far as it has passed. None is answered for a last unit that
    /// breaks a rule of headers or pictures, which is dropped. An error is the first of what refuses the unit.
    pub fn read(
        &mut self,
        alloc: Global,
        unit: &CutUnit<'_>,
        is_last: bool,
        places: &VideoPlaces,
    ) -> Result<Option<TimedPicture>, ProgramFault>
        requires order { unit.now.begin ≤ unit.now.end }
        requires place { unit.now.begin < 2 ^ 41 }
        requires size { length unit.now.bytes.now ≤ 2 ^ 60 }
        requires stand { (packets : List PesUnit) × Stand packets places.now × (unit.now.end ≤ length (joined packets)) }
        requires passed { HasPassed places.now.pictures.items places.now.packets.items unit.now.begin self.old.times }
        requires before { IfSome self.old.kept.last IsPossible }
        requires coarser { length self.old.wanted.coarser.now < VERSIONS_MOST }
        ensures read { IsReadAs places.now unit.now is_last self.old.kept.last result }
        ensures kept { IfOk result (λ found. IsKeptAs self.old.kept (place_of unit.now) found self.new.kept) }
        ensures sizes { IfOk result (IsSizedFound (state_behind self.old.kept.last) unit.now.bytes.now self.old.wanted.coarser.now self.old.wanted.are_wanted self.old.sizes.items
            self.new.sizes.items) }
        ensures passed { HasPassed places.now.pictures.items places.now.packets.items unit.now.end self.new.times }
        ensures wanted { self.new.wanted ≡ self.old.wanted }
    {
        let times = self.times.times_of(
            places.pictures.as_slice(),
            places.packets.as_slice(),
            unit.begin,
            unit.end,
        );
        let timed = TimedUnit {
            begin: unit.begin,
            end: unit.end,
            times,
            is_last,
        };
        self.keep(alloc, unit.bytes, &timed)
    }

    /// Keeps the next unit with these bytes and times.
    fn keep(
        &mut self,
        alloc: Global,
        bytes: &[u8],
        unit: &TimedUnit,
    ) -> Result<Option<TimedPicture>, ProgramFault>
        requires size { length bytes.now ≤ 2 ^ 60 }
        requires order { unit.now.begin ≤ unit.now.end }
        requires place { unit.now.begin < 2 ^ 41 }
        requires times { IfSome (decoding_time unit.now.times) (λ time. time < 2 ^ 33) }
        requires before { IfSome self.old.kept.last IsPossible }
        requires coarser { length self.old.wanted.coarser.now < VERSIONS_MOST }
        ensures found { (es : List ℕ) (packets : List PlacedPacket) (earlier : List TimedPicture) → bytes.now ≡ unit_bytes es (unit.now.begin, unit.now.end) →
            nearest earlier ≡ self.old.kept.last → LastTells earlier → unit.now.times ≡ times_of_unit es packets (unit.now.begin, unit.now.end) →
            MatchResult result (IsFound es packets earlier self.old.kept.last unit.now) (IsNotFound es packets self.old.kept.last unit.now) }
        ensures kept { IfOk result (λ found. IsKeptAs self.old.kept (unit.now.begin, unit.now.end) found self.new.kept) }
        ensures sizes { IfOk result (IsSizedFound (state_behind self.old.kept.last) bytes.now self.old.wanted.coarser.now self.old.wanted.are_wanted self.old.sizes.items
            self.new.sizes.items) }
        ensures times { self.new.times ≡ self.old.times }
        ensures wanted { self.new.wanted ≡ self.old.wanted }
    {
        match unit_picture(
            alloc,
            bytes,
            unit,
            self.kept.last.as_ref(),
            &self.wanted,
            &mut self.sizes,
            &mut self.ladder,
        ) {
            Ok(Some(picture)) => {
                self.kept.add(unit, &picture)?;
                Ok(Some(picture))
            }
            Ok(None) => {
                self.kept.dropped = 1;
                Ok(None)
            }
            Err(fault) => Err(fault),
        }
    }
}
