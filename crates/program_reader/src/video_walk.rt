//! A video read while its PES packets pass: none of its bytes are kept but those of the open unit.
ghost use Rattle.std.specs.Prelude.{◌≡◌, ◌⊎◌, ℕ, ◌+◌, ◌<◌, ◌≤◌, List, [], ◌∷◌, ◌++◌, length, drop, map, true, None, Some, IfErr, IfOk, OnOk, MatchResult, if◌then◌else◌};
ghost use Rattle.std.specs.Option.{option_copied};
ghost use Rattle.pes_units.specs.PesHeader.{pes_fields_of};
ghost use Rattle.pes_units.specs.PesPackets.{is_dropped, last_refusal, packet_refusal};
ghost use Rattle.ts_demux.specs.declared.demuxed.Demuxed.{Demuxed};
ghost use Rattle.ts_demux.specs.declared.demuxed.PesUnit.{PesUnit};
ghost use Rattle.program_reader.specs.declared.program_fault.ProgramFault.TheVariants as faults;
ghost use Rattle.program_reader.specs.declared.program_fault.SourceKind.TheVariants as kinds;
ghost use Rattle.program_reader.specs.KeptUnits.{kept_at};
ghost use Rattle.elementary_streams.specs.Packets.{AreSound, joined, packets_dropped, taken};
ghost use Rattle.program_reader.specs.Programs.{IsDemuxedRefused, video_bytes};
ghost use Rattle.program_reader.specs.Sizes.{AreUnitSizes};
ghost use Rattle.program_reader.specs.VideoWalk.{AreAll, AreFew, HasRead, IsFaultBefore, IsVideoWalked, Reads, ReadsTo, wanted_of};
ghost use Rattle.program_reader.specs.Private.PassedVideo.{IsVideoOf};
ghost use Rattle.program_reader.specs.Private.PassedVideo.{IsFaultOf};

use crate::kept_units::KeptUnit;
use crate::limits::FILE_BYTES_MOST;
use crate::passed_units::PassedUnits;
use crate::program_fault::{ProgramFault, SourceKind, pes_refused};
use crate::timed_picture::TimedPicture;
use crate::unit_sizes::{SizesWanted, UnitSizes};
use crate::video_places::VideoPlaces;
use elementary_streams::bytes_behind;
use es_units::UnitCutter;
use list_types::OutOfMemory;
use pes_units::PesHeader;
use std::alloc::Global;
use ts_demux::PesUnit;
use version_table::limits::VERSIONS_MOST;

/// A video that is read while its PES packets pass, each of which is given whole. It keeps where each packet, picture and unit
/// stands, and the bytes of the open unit.
#[derive(Drop)]
pub struct VideoWalk<'a> {
    alloc: Global,
    places: VideoPlaces,
    cutter: UnitCutter,
    /// What is read of the units that have ended.
    units: PassedUnits<'a>,
    /// What the first unit that is refused is refused for. None is read behind it.
    refused: Option<ProgramFault>,
}

/// What is read of a video, without its bytes.
#[derive(Drop)]
pub struct WalkedVideo {
    /// The units that are kept.
    pub units: Vec<KeptUnit>,
    /// The picture of the first one.
    pub first: TimedPicture,
    /// The sizes of the units' versions, where they are wanted.
    pub sizes: Vec<UnitSizes>,
    /// How many units are dropped at both ends.
    pub units_dropped: u32,
    /// How many PES packets are dropped.
    pub pes_dropped: u32,
}

/// What is said where no unit is left.
const NO_SEQUENCE: ProgramFault = ProgramFault::Refused {
    kind: SourceKind::NoSequence,
    at: 0,
};

impl<'a> VideoWalk<'a> {
    /// A walk before the first PES packet of a video, of whose units the sizes of these versions may be wanted.
    pub fn new(alloc: Global, wanted: SizesWanted<'a>) -> Self
        requires coarser { length wanted.coarser.now < VERSIONS_MOST }
        ensures read { HasRead [] result }
        ensures wanted { wanted_of result ≡ wanted.entry }
    {
        VideoWalk {
            alloc,
            places: VideoPlaces::new(alloc),
            cutter: UnitCutter::new(alloc, FILE_BYTES_MOST),
            units: PassedUnits::new(alloc, wanted),
            refused: None,
        }
    }

    /// Takes the next PES packet, which another one follows. An error is its fault, which is the video's first refusal, or want of
    /// memory.
    pub fn add(&mut self, packet: &PesUnit) -> Result<(), ProgramFault>
        requires read { (packets : List PesUnit) × HasRead packets self.old × AreFew (packets ++ packet.now ∷ []) }
        ensures read { (packets : List PesUnit) → HasRead packets self.old → AreFew (packets ++ packet.now ∷ []) → OnOk result (HasRead (packets ++ packet.now ∷ []) self.new) }
        ensures refused { (packets : List PesUnit) → HasRead packets self.old →
            IfErr result (λ fault. (fault ≡ faults.OutOfMemory) ⊎ IsFaultBefore packets packet.now fault) }
        ensures wanted { wanted_of self.new ≡ wanted_of self.old }
    {
        let header = match whole_header(packet) {
            Ok(header) => header,
            Err(fault) => return Err(fault),
        };
        self.take(packet, header)?;
        Ok(())
    }

    /// Ends the walk behind the last PES packet, which the file's end may cut; a video may have none at all. An error is the video's first
    /// refusal, or want of memory.
    pub fn end(self, last: Option<&PesUnit>) -> Result<WalkedVideo, ProgramFault>
        requires read { (packets : List PesUnit) × (all : List PesUnit) × HasRead packets self × AreAll packets (option_copied last) all × AreFew all }
        ensures video { (packets : List PesUnit) (demuxed : Demuxed) → HasRead packets self.entry → AreAll packets (option_copied last.entry) demuxed.video → AreFew demuxed.video →
            MatchResult result (IsVideoWalked demuxed) (λ fault. (fault ≡ faults.OutOfMemory) ⊎ IsDemuxedRefused demuxed fault) }
        ensures sizes { (packets : List PesUnit) (demuxed : Demuxed) → HasRead packets self.entry → AreAll packets (option_copied last.entry) demuxed.video → AreFew demuxed.video →
            (wanted_of self.entry).are_wanted ≡ true →
            IfOk result (λ video. AreUnitSizes (video_bytes demuxed) (wanted_of self.entry).coarser.now None (map kept_at video.units.items) video.sizes.items) }
    {
        let mut walk = self;
        let Some(last) = last else {
            return walk.finish(0);
        };
        match last_header(last) {
            Ok(Some(header)) => {
                walk.take(last, header)?;
                walk.finish(0)
            }
            Ok(None) => walk.finish(1),
            Err(fault) => Err(fault),
        }
    }

    /// Takes a PES packet with this header, which has no fault.
    fn take(&mut self, packet: &PesUnit, header: PesHeader) -> Result<(), OutOfMemory>
        requires read { (packets : List PesUnit) × Reads packets (length (joined packets)) self.old.refused self.old × AreFew (packets ++ packet.now ∷ []) }
        requires header { header ≡ pes_fields_of packet.now.bytes }
        ensures read { (packets : List PesUnit) → Reads packets (length (joined packets)) self.old.refused self.old → AreFew (packets ++ packet.now ∷ []) →
            OnOk result (Reads (packets ++ packet.now ∷ []) (length (joined (packets ++ packet.now ∷ []))) self.new.refused self.new) }
        ensures wanted { wanted_of self.new ≡ wanted_of self.old }
    {
        if self.refused.is_some() {
            return Ok(());
        }
        let payload = bytes_behind(packet.bytes.as_slice(), header.len as usize);
        self.places.add(payload, header)?;
        self.read_units(payload)
    }

    /// Reads the units that end with bytes that are next, up to the first one that is refused.
    fn read_units(&mut self, bytes: &[u8]) -> Result<(), OutOfMemory>
        requires none { self.old.refused ≡ None }
        requires read { (packets : List PesUnit) × (at : ℕ) × Reads packets at self.old.refused self.old × AreFew packets × (drop at (joined packets) ≡ bytes.now) }
        ensures read { (packets : List PesUnit) (at : ℕ) → Reads packets at self.old.refused self.old → AreFew packets → drop at (joined packets) ≡ bytes.now →
            OnOk result (Reads packets (length (joined packets)) self.new.refused self.new) }
        ensures wanted { wanted_of self.new ≡ wanted_of self.old }
    {
        let mut count = 0;
        while count < bytes.len() {
            if self.refused.is_some() {
                return Ok(());
            }
            count += self.read_next(&bytes[count..])?;
        }
        Ok(())
    }

    /// Takes bytes up to the end of the next unit, or all, and answers how many. A unit that has ended is read.
    fn read_next(&mut self, bytes: &[u8]) -> Result<usize, OutOfMemory>
        requires none { self.old.refused ≡ None }
        requires some { 0 < length bytes.now }
        requires read { (packets : List PesUnit) × (at : ℕ) × Reads packets at self.old.refused self.old × AreFew packets × (drop at (joined packets) ≡ bytes.now) }
        ensures read { (packets : List PesUnit) (at : ℕ) → Reads packets at self.old.refused self.old → AreFew packets → drop at (joined packets) ≡ bytes.now →
            IfOk result (λ count. Reads packets (at + count) self.new.refused self.new) }
        ensures within { IfOk result (λ count. (0 < count) × (count ≤ length bytes.now)) }
        ensures wanted { wanted_of self.new ≡ wanted_of self.old }
    {
        let count = self.cutter.push(bytes)?;
        let Some(unit) = self.cutter.ended() else {
            return Ok(count);
        };
        match self.units.read(self.alloc, &unit, false, &self.places) {
            Ok(_) => Ok(count),
            Err(fault) => match fault {
                ProgramFault::OutOfMemory => Err(OutOfMemory),
                ProgramFault::Refused { kind, at } => {
                    self.refused = Some(ProgramFault::Refused { kind, at });
                    Ok(count)
                }
            },
        }
    }

    /// Ends the walk behind all PES packets that are taken, beside which so many are dropped.
    fn finish(self, pes_dropped: u32) -> Result<WalkedVideo, ProgramFault>
        requires read { (packets : List PesUnit) × Reads packets (length (joined packets)) self.refused self × AreFew packets }
        ensures video { (packets : List PesUnit) (demuxed : Demuxed) → Reads packets (length (joined packets)) self.entry.refused self.entry → AreFew packets → AreSound true demuxed.video →
            taken true demuxed.video ≡ packets → pes_dropped ≡ packets_dropped true demuxed.video →
            MatchResult result (IsVideoWalked demuxed) (λ fault. (fault ≡ faults.OutOfMemory) ⊎ IsDemuxedRefused demuxed fault) }
        ensures sizes { (packets : List PesUnit) → Reads packets (length (joined packets)) self.entry.refused self.entry → AreFew packets → (wanted_of self.entry).are_wanted ≡ true →
            IfOk result (λ video. AreUnitSizes (joined packets) (wanted_of self.entry).coarser.now None (map kept_at video.units.items) video.sizes.items) }
    {
        match self.refused {
            Some(fault) => Err(fault),
            None => self.read_last(pes_dropped),
        }
    }

    /// The same where no unit was refused: reads the last unit.
    fn read_last(self, pes_dropped: u32) -> Result<WalkedVideo, ProgramFault>
        requires read { (packets : List PesUnit) × ReadsTo packets (length (joined packets)) self.places self.cutter self.units × AreFew packets }
        ensures video { (packets : List PesUnit) (demuxed : Demuxed) → ReadsTo packets (length (joined packets)) self.entry.places self.entry.cutter self.entry.units → AreFew packets →
            AreSound true demuxed.video → taken true demuxed.video ≡ packets → pes_dropped ≡ packets_dropped true demuxed.video →
            MatchResult result (IsVideoWalked demuxed) (λ fault. (fault ≡ faults.OutOfMemory) ⊎ IsDemuxedRefused demuxed fault) }
        ensures sizes { (packets : List PesUnit) → ReadsTo packets (length (joined packets)) self.entry.places self.entry.cutter self.entry.units → AreFew packets → (wanted_of self.entry).are_wanted ≡ true →
            IfOk result (λ video. AreUnitSizes (joined packets) (wanted_of self.entry).coarser.now None (map kept_at video.units.items) video.sizes.items) }
    {
        let VideoWalk {
            alloc,
            places,
            cutter,
            mut units,
            ..
        } = self;
        let Some(unit) = cutter.last() else {
            return Err(NO_SEQUENCE);
        };
        match units.read(alloc, &unit, true, &places) {
            Ok(_) => walked_video(units, cutter.dropped(), pes_dropped),
            Err(fault) => Err(fault),
        }
    }
}

/// The header of a video's PES packet that another one follows. An error is its fault.
fn whole_header(packet: &PesUnit) -> Result<PesHeader, ProgramFault>
    ensures sound { IfOk result (λ _. packet_refusal true packet.now.bytes ≡ None) }
    ensures header { IfOk result (λ header. header ≡ pes_fields_of packet.now.bytes) }
    ensures refused { IfErr result (IsFaultOf packet.now.at (packet_refusal true packet.now.bytes)) }
{
    match PesHeader::read_packet(packet.bytes.as_slice(), true) {
        Ok(header) => Ok(header),
        Err(fault) => Err(pes_refused(packet.at, fault)),
    }
}

/// The header of a video's last PES packet, or none where it is dropped. An error is its fault.
fn last_header(packet: &PesUnit) -> Result<Option<PesHeader>, ProgramFault>
    ensures sound { IfOk result (λ _. last_refusal true packet.now.bytes ≡ None) }
    ensures header { IfOk result (λ header. header ≡ (if is_dropped true packet.now.bytes then None else Some (pes_fields_of packet.now.bytes))) }
    ensures refused { IfErr result (IsFaultOf packet.now.at (last_refusal true packet.now.bytes)) }
{
    match PesHeader::read_last(packet.bytes.as_slice(), true) {
        Ok(header) => Ok(header),
        Err(fault) => Err(pes_refused(packet.at, fault)),
    }
}

/// The video of units that are read, beside which so many units and PES packets are dropped. The error is that no unit is left.
fn walked_video(
    units: PassedUnits<'_>,
    units_dropped: u32,
    pes_dropped: u32,
) -> Result<WalkedVideo, ProgramFault>
    ensures { MatchResult result (IsVideoOf units.entry units_dropped pes_dropped) (λ fault. (units.entry.kept.first ≡ None) × (fault ≡ faults.Refused kinds.NoSequence 0)) }
{
    let PassedUnits { kept, sizes, .. } = units;
    match kept.first {
        Some(first) => Ok(WalkedVideo {
            units: kept.units,
            first,
            sizes,
            units_dropped: units_dropped.saturating_add(kept.dropped),
            pes_dropped,
        }),
        None => Err(NO_SEQUENCE),
    }
}
