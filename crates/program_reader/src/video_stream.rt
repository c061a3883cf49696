//! The video of a program: its PES packets, and its units with their pictures and times.
ghost use Rattle.std.specs.Prelude.{◌≡◌, ◌⊎◌, ◌≤◌, ◌<◌, [], None, length, map, true, IfOk, MatchResult, Some};
ghost use Rattle.std.specs.List.{sum_by};
ghost use Rattle.ts_demux.specs.declared.demuxed.Demuxed.{Demuxed};
ghost use Rattle.es_units.specs.Units.{cut_units};
ghost use Rattle.program_reader.specs.declared.program_fault.ProgramFault.TheVariants.{OutOfMemory};
ghost use Rattle.program_reader.specs.KeptUnits.{kept_at};
ghost use Rattle.program_reader.specs.Programs.{IsDemuxedRefused};
ghost use Rattle.program_reader.specs.Sizes.{AreUnitSizes};
ghost use Rattle.program_reader.specs.Private.KeptUnits.{AreUnitsKept};
ghost use Rattle.program_reader.specs.Private.Sources.{IsVideoRead};
ghost use Rattle.elementary_streams.specs.Taken.{AreTaken};

use crate::cut_places::cut_places;
use crate::due::EarliestTime;
use crate::kept_units::{KeptUnit, KeptUnits, keep_units};
use crate::limits::{FILE_BYTES_MOST, PES_PACKETS_MOST};
use crate::program_fault::{ProgramFault, SourceKind, stream_refused};
use crate::timed_picture::TimedPicture;
use crate::unit_sizes::{SizesWanted, UnitSizes};
use elementary_streams::{AxisTime, TakenPackets, take_packets};
use es_units::{UnitFault, Units, split_units};
use list_types::ListOf;
use std::alloc::Global;
use ts_demux::PesUnit;
use version_table::limits::VERSIONS_MOST;

/// What is read of a video.
#[derive(Drop)]
pub struct ReadVideo {
    /// Its PES packets.
    pub taken: TakenPackets,
    /// The units that are kept.
    pub units: Vec<KeptUnit>,
    /// The picture of the first one.
    pub first: TimedPicture,
    /// How many units are dropped at both ends.
    pub units_dropped: u32,
}

/// What is said where no unit is left.
const NO_SEQUENCE: ProgramFault = ProgramFault::Refused {
    kind: SourceKind::NoSequence,
    at: 0,
};

/// Reads the video of what is taken out of a file, by its PES packets, which are let go. An error is the first fault of the packets,
/// or that no unit is left, or else the first refusal of the first unit that is refused. Where the sizes of the units' versions are wanted,
/// these are put into `sizes`.
pub fn read_video(
    alloc: Global,
    packets: ListOf<PesUnit>,
    wanted: &SizesWanted<'_>,
    sizes: &mut Vec<UnitSizes>,
) -> Result<ReadVideo, ProgramFault>
    requires few { length packets ≤ PES_PACKETS_MOST }
    requires size { sum_by (λ packet. length packet.bytes) packets ≤ FILE_BYTES_MOST }
    requires coarser { length wanted.now.coarser.now < VERSIONS_MOST }
    requires none { sizes.old.items ≡ [] }
    ensures video { (demuxed : Demuxed) → demuxed.video ≡ packets → MatchResult result (IsVideoRead demuxed) (λ fault. (fault ≡ OutOfMemory) ⊎ IsDemuxedRefused demuxed fault) }
    ensures sizes { IfOk result (λ video. wanted.now.are_wanted ≡ true →
        AreUnitSizes video.taken.payload.items wanted.now.coarser.now None (map kept_at video.units.items) sizes.new.items) }
{
    cut_places();
    let taken = match take_packets(alloc, packets.as_slice(), true) {
        Ok(taken) => taken,
        Err(fault) => return Err(stream_refused(fault)),
    };
    let units = match split_units(alloc, taken.payload.as_slice()) {
        Ok(units) => units,
        Err(UnitFault::NoSequence { at: _ }) => return Err(NO_SEQUENCE),
        Err(UnitFault::OutOfMemory) => return Err(ProgramFault::OutOfMemory),
    };
    match keep_units(alloc, &taken, units.cuts.as_slice(), wanted, sizes) {
        Ok(kept) => read_units(taken, &units, kept),
        Err(fault) => Err(fault),
    }
}

/// A video of which these units are kept, if there are any.
fn read_units(
    taken: TakenPackets,
    units: &Units,
    kept: KeptUnits,
) -> Result<ReadVideo, ProgramFault>
    requires units { cut_units taken.payload.items ≡ Some units.now }
    requires kept { AreUnitsKept taken.payload.items taken.packets.items units.now.cuts kept }
    ensures video { (demuxed : Demuxed) → AreTaken true demuxed.video taken → MatchResult result (IsVideoRead demuxed) (IsDemuxedRefused demuxed) }
    ensures bytes { IfOk result (λ video. video.taken.payload.items ≡ taken.payload.items) }
    ensures rows { IfOk result (λ video. video.units.items ≡ kept.units.items) }
{
    match kept.first {
        Some(first) => Ok(ReadVideo {
            taken,
            units: kept.units,
            first,
            units_dropped: units.dropped.saturating_add(kept.dropped),
        }),
        None => Err(NO_SEQUENCE),
    }
}

impl ReadVideo {
    /// Its bytes.
    pub fn into_bytes(self) -> ListOf<u8>
        ensures { result ≡ self.taken.payload.items }
    {
        let ReadVideo { taken, .. } = self;
        let TakenPackets { payload, .. } = taken;
        ListOf::from_vec(payload)
    }

    /// The time of its first picture, in units of 1/90,000 s.
    pub fn first_time(&self) -> AxisTime
        ensures { result.time ≡ self.now.first.stated }
    {
        AxisTime {
            time: self.first.stated,
        }
    }

    /// The same in ticks.
    pub fn first_ticks(&self) -> EarliestTime
        ensures { result.ticks ≡ self.now.first.ticks }
    {
        EarliestTime {
            ticks: self.first.ticks,
        }
    }
}
