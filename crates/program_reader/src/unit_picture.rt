//! A unit as a coded picture behind the one before.
ghost use Rattle.std.specs.Prelude.{◌≡◌, ◌≤◌, ◌<◌, ◌^◌, ℕ, List, length, IfSome, IfOk, MatchResult};
ghost use Rattle.std.specs.Option.{option_copied};
ghost use Rattle.pes_units.specs.Times.{decoding_time};
ghost use Rattle.elementary_streams.specs.declared.pes_packets.PlacedPacket.{PlacedPacket};
ghost use Rattle.picture_reader.specs.PictureFault.{refusal_told};
ghost use Rattle.program_reader.specs.PictureTimes.{times_of_unit};
ghost use Rattle.program_reader.specs.Intervals.{nearest};
ghost use Rattle.program_reader.specs.Units.{state_behind, unit_bytes};
ghost use Rattle.program_reader.specs.Private.SizedUnits.{IsSizedFound};
ghost use Rattle.program_reader.specs.Private.TimedPictures.{IsPossible, IsFound, IsNotFound, LastTells, broken_answer};

use crate::program_fault::{ProgramFault, SourceKind};
use crate::timed_picture::{TimedPicture, timed_picture};
use crate::unit_sizes::{SizesWanted, UnitSizes, check_unit};
use pes_units::Times;
use picture_reader::{Headers, PictureFault};
use std::alloc::Global;
use syntax_types::SeqState;
use version_maker::Ladder;
use version_table::limits::VERSIONS_MOST;

/// A unit of the video from a place up to another, with the times of its picture.
#[derive(Clone, Copy)]
pub struct TimedUnit {
    pub begin: u64,
    pub end: u64,
    pub times: Times,
    /// No unit follows.
    pub is_last: bool,
}

/// The picture of a unit with these bytes behind the one before, whose sizes are put behind the others where they are wanted. None is
/// answered for a last unit that breaks a rule of headers or pictures. An error is the first of what refuses the unit.
pub fn unit_picture(
    alloc: Global,
    bytes: &[u8],
    unit: &TimedUnit,
    before: Option<&TimedPicture>,
    wanted: &SizesWanted<'_>,
    sizes: &mut Vec<UnitSizes>,
    ladder: &mut Ladder,
) -> Result<Option<TimedPicture>, ProgramFault>
    requires size { length bytes.now ≤ 2 ^ 60 }
    requires order { unit.now.begin ≤ unit.now.end }
    requires place { unit.now.begin < 2 ^ 41 }
    requires times { IfSome (decoding_time unit.now.times) (λ time. time < 2 ^ 33) }
    requires before { IfSome (option_copied before) IsPossible }
    requires coarser { length wanted.now.coarser.now < VERSIONS_MOST }
    ensures found { (es : List ℕ) (packets : List PlacedPacket) (earlier : List TimedPicture) → bytes.now ≡ unit_bytes es (unit.now.begin, unit.now.end) →
        nearest earlier ≡ option_copied before.entry → LastTells earlier → unit.now.times ≡ times_of_unit es packets (unit.now.begin, unit.now.end) →
        MatchResult result (IsFound es packets earlier (option_copied before.entry) unit.now) (IsNotFound es packets (option_copied before.entry) unit.now) }
    ensures sizes { IfOk result (IsSizedFound (state_behind (option_copied before.entry)) bytes.now wanted.now.coarser.now wanted.now.are_wanted sizes.old.items sizes.new.items) }
{
    let headers = match check_unit(alloc, bytes, state_behind(before), wanted, sizes, ladder) {
        Ok(headers) => headers,
        Err(fault) => return broken(unit, fault),
    };
    match timed_picture(
        &headers.seq,
        &headers.coding,
        unit.begin,
        unit.end,
        unit.times,
        before,
    ) {
        Ok(picture) => Ok(Some(picture)),
        Err(fault) => Err(fault),
    }
}

/// The state in force behind a picture, or none.
fn state_behind(before: Option<&TimedPicture>) -> Option<&SeqState>
    ensures { option_copied result ≡ state_behind (option_copied before.entry) }
{
    match before {
        Some(before) => Some(&before.seq),
        None => None,
    }
}

/// What a unit that breaks a rule of headers or pictures is: nothing where it is the last one, and else refused.
fn broken(unit: &TimedUnit, fault: PictureFault) -> Result<Option<TimedPicture>, ProgramFault>
    requires { unit.now.begin < 2 ^ 41 }
    ensures { result ≡ broken_answer unit.now (refusal_told fault) }
{
    let (kind, bit) = match fault {
        PictureFault::NoCode { at } => (SourceKind::NoCode, at),
        PictureFault::TooMany { at } => (SourceKind::TooMany, at),
        PictureFault::BadEscape { at } => (SourceKind::BadEscape, at),
        PictureFault::BadType { at } => (SourceKind::BadType, at),
        PictureFault::BadAddress { at } => (SourceKind::BadAddress, at),
        PictureFault::BadPattern { at } => (SourceKind::BadPattern, at),
        PictureFault::End { at } => (SourceKind::End, at),
        PictureFault::Uncovered { at } => (SourceKind::Uncovered, at),
        PictureFault::BadHeader { at } => (SourceKind::BadHeader, at),
        PictureFault::NotMpeg2 { at } => (SourceKind::NotMpeg2, at),
        PictureFault::Profile { at } => (SourceKind::Profile, at),
        PictureFault::LowDelay { at } => (SourceKind::LowDelay, at),
        PictureFault::Size { at } => (SourceKind::Size, at),
        PictureFault::OutOfMemory => return Err(ProgramFault::OutOfMemory),
    };
    if unit.is_last {
        return Ok(None);
    }
    Err(ProgramFault::Refused {
        kind,
        at: unit.begin + bit / 8,
    })
}
