ghost use Rattle.std.specs.Prelude.{◌≡◌, ◌++◌, ◌≤◌, ℕ, List, drop, length, take, IfOk, MatchResult};
ghost use Rattle.std.specs.Option.{option_copied};
ghost use Rattle.syntax_types.specs.declared.picture.Picture.{Picture};
ghost use Rattle.picture_grammar.specs.Picture.{IsLawful, MayPrecede};
ghost use Rattle.picture_grammar.specs.Written.{IsWritten};
ghost use Rattle.picture_heads.specs.Heads.{HasDelay, IsHeadWithoutDelay};
ghost use Rattle.picture_reader.specs.Picture.{IsPictureOf, IsRefusedAs};
ghost use Rattle.version_maker.specs.Versions.{AreVersions, AreVersionsOf, IsCoarserVersion, IsVersionAt};
ghost use Rattle.version_maker.specs.Private.Bytes.{AreSourceBytes, AreSourceBytesOf};

use crate::fault::want_of_memory;
use crate::limits::UNIT_BYTES_MOST;
use crate::version::UnitVersion;
use crate::version_write::coarser_bytes;
use list_types::{ListOf, OutOfMemory};
use picture_heads::without_delay;
use picture_reader::{PictureFault, UnitCursor, check_picture, read_picture};
use picture_writer::write_picture;
use requantiser::{coarsen, distortion};
use shelf_io::{Fault, VecSink};
use std::alloc::Global;
use syntax_types::{Picture, SeqState};

/// All versions of a unit, behind the state before it or none for the first unit: version 0, the unit itself with a
/// vbv_delay of FFFF, then the version at each ratio of `coarser`, in sixteenths and in their order. Refuses a unit as
/// `read_picture` does, by the kind and the place in bits.
pub fn versions_of(
    alloc: Global,
    unit: &[u8],
    before: Option<&SeqState>,
    coarser: &[u16],
) -> Result<ListOf<UnitVersion>, PictureFault>
    requires unit { length unit.now ≤ UNIT_BYTES_MOST }
    requires before { MayPrecede (option_copied before) }
    ensures { MatchResult result (AreVersions (option_copied before.entry) unit.now coarser.now)
        (IsRefusedAs (option_copied before.entry) unit.now) }
{
    let picture = match read_picture(alloc, unit, before) {
        Ok(picture) => picture,
        Err(fault) => return Err(fault),
    };
    let versions = versions_of_picture(alloc, unit, &picture, coarser)?;
    Ok(versions)
}

/// The bytes of the version with this number alone. It goes once through the unit, and keeps neither its macroblocks nor
/// those of the version.
pub fn version_of(
    alloc: Global,
    unit: &[u8],
    before: Option<&SeqState>,
    coarser: &[u16],
    index: u8,
) -> Result<ListOf<u8>, PictureFault>
    requires unit { length unit.now ≤ UNIT_BYTES_MOST }
    requires before { MayPrecede (option_copied before) }
    requires index { index ≤ length coarser.now }
    ensures { MatchResult result (IsVersionAt (option_copied before.entry) unit.now coarser.now index)
        (IsRefusedAs (option_copied before.entry) unit.now) }
{
    if index == 0 {
        return source_version(alloc, unit, before);
    }
    coarser_bytes(alloc, unit, before, coarser[usize::from(index) - 1])
}

/// The bytes of version 0 of a unit that is known to spell a picture, the same as `version_of` makes. Only its head is read,
/// and none of its macroblocks.
pub fn first_version_of(
    alloc: Global,
    unit: &[u8],
    before: Option<&SeqState>,
) -> Result<ListOf<u8>, OutOfMemory>
    requires unit { length unit.now ≤ UNIT_BYTES_MOST }
    requires before { MayPrecede (option_copied before) }
    requires picture { (picture : Picture) × IsPictureOf (option_copied before) unit.now picture }
    ensures { IfOk result (λ bytes. (coarser : List ℕ) → IsVersionAt (option_copied before.entry) unit.now coarser 0 bytes) }
{
    let cursor = match UnitCursor::new(unit, before) {
        Ok(cursor) => cursor,
        Err(fault) => return Err(want_of_memory(fault)),
    };
    let version = source_bytes(alloc, unit, cursor.headers.slices_at as usize)?;
    Ok(version)
}

// The versions of the picture that the unit spells.
fn versions_of_picture(
    alloc: Global,
    unit: &[u8],
    picture: &Picture,
    coarser: &[u16],
) -> Result<ListOf<UnitVersion>, OutOfMemory>
    requires lawful { IsLawful picture.now }
    requires begins { (behind : List ℕ) × (unit.now ≡ picture.now.head ++ behind) }
    ensures { IfOk result (AreVersionsOf picture.now unit.now coarser.now) }
{
    let bytes = source_of_picture(alloc, unit, picture)?;
    let mut versions = ListOf::new(alloc);
    versions.push(UnitVersion {
        bytes,
        distortion: 0,
    })?;
    for m in coarser {
        versions.push(coarser_version(alloc, picture, *m)?)?;
    }
    Ok(versions)
}

// Version 0 of the unit, which is gone through and not kept.
fn source_version(
    alloc: Global,
    unit: &[u8],
    before: Option<&SeqState>,
) -> Result<ListOf<u8>, PictureFault>
    requires unit { length unit.now ≤ UNIT_BYTES_MOST }
    requires before { MayPrecede (option_copied before) }
    ensures { MatchResult result (AreSourceBytesOf (option_copied before.entry) unit.now) (IsRefusedAs (option_copied before.entry) unit.now) }
{
    let headers = match check_picture(alloc, unit, before) {
        Ok(headers) => headers,
        Err(fault) => return Err(fault),
    };
    let bytes = source_bytes(alloc, unit, headers.slices_at as usize)?;
    Ok(bytes)
}

// Version 0 of the unit that spells the picture.
fn source_of_picture(
    alloc: Global,
    unit: &[u8],
    picture: &Picture,
) -> Result<ListOf<u8>, OutOfMemory>
    requires lawful { IsLawful picture.now }
    requires begins { (behind : List ℕ) × (unit.now ≡ picture.now.head ++ behind) }
    ensures { IfOk result (AreSourceBytes picture.now unit.now) }
{
    let bytes = source_bytes(alloc, unit, picture.head.len())?;
    Ok(bytes)
}

// The unit with the head, its first so many bytes, without its vbv_delay.
fn source_bytes(alloc: Global, unit: &[u8], size: usize) -> Result<ListOf<u8>, OutOfMemory>
    requires within { size ≤ length unit.now }
    requires delay { (front : List ℕ) × (delay : List ℕ) × (back : List ℕ) × HasDelay (take size unit.now) front delay back }
    ensures { IfOk result (λ bytes. (head : List ℕ) × IsHeadWithoutDelay (take size unit.now) head × (bytes ≡ head ++ drop size unit.now)) }
{
    let head = without_delay(alloc, &unit[..size])?;
    let mut bytes = head.into_vec();
    bytes.extend_from_slice(&unit[size..])?;
    Ok(ListOf::from_vec(bytes))
}

/// The version at m sixteenths.
pub fn coarser_version(alloc: Global, picture: &Picture, m: u16) -> Result<UnitVersion, OutOfMemory>
    requires lawful { IsLawful picture.now }
    ensures { IfOk result (IsCoarserVersion picture.now m) }
{
    let made = coarsen(alloc, picture, m)?;
    let distortion = distortion(picture, &made);
    let bytes = written(alloc, &made)?;
    Ok(UnitVersion { bytes, distortion })
}

// The written spelling of a picture.
fn written(alloc: Global, picture: &Picture) -> Result<ListOf<u8>, OutOfMemory>
    requires lawful { IsLawful picture.now }
    ensures { IfOk result (IsWritten picture.now) }
{
    let mut sink = VecSink::new(alloc);
    match write_picture(&mut sink, picture) {
        Ok(()) => {
            let bytes = sink.bytes().to_vec(alloc)?;
            Ok(ListOf::from_vec(bytes))
        }
        Err(fault) => match fault {
            Fault::Failed => unreachable!(),
            Fault::Missing => unreachable!(),
            Fault::OutOfMemory => Err(OutOfMemory),
        },
    }
}
