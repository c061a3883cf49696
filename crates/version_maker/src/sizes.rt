ghost use Rattle.std.specs.Prelude.{◌≡◌, ◌≤◌, ◌<◌, ◌+◌, length, drop, if◌then◌else◌, MatchResult};
ghost use Rattle.std.specs.Option.{option_copied};
ghost use Rattle.picture_grammar.specs.Picture.{MayPrecede};
ghost use Rattle.picture_reader.specs.Picture.{IsRefusedAs};
ghost use Rattle.version_maker.specs.SizedPicture.{IsSizedPicture};
ghost use Rattle.version_maker.specs.Versions.{AreSizes};

use crate::lent::Lent;
use crate::limits::UNIT_BYTES_MOST;
use crate::slice_read::{SliceRead, read_and_count};
use crate::unit_sizes::{add_slice, all_sizes, no_sizes};
use crate::version::VersionSize;
use arrayvec::ArrayVec;
use picture_reader::{Headers, PictureFault, UnitCursor, UnitPart};
use requantiser::Ladder;
use std::alloc::Global;
use syntax_types::{PictureParameters, SeqState};
use version_table::limits::VERSIONS_MOST;

/// The headers of the picture of a unit, and how long all versions of the unit are.
#[derive(Drop)]
pub struct SizedPicture {
    pub headers: Headers,
    /// With the distortions, in the order of `versions_of`.
    pub sizes: ArrayVec<VersionSize, VERSIONS_MOST>,
}

/// How long all versions of a unit are, and their distortions, at ratios in sixteenths and in the order of `versions_of`, which
/// refuses the same units.
/// It goes once through the unit, and keeps no macroblock.
pub fn sizes_of(
    alloc: Global,
    unit: &[u8],
    before: Option<&SeqState>,
    coarser: &[u16],
) -> Result<ArrayVec<VersionSize, VERSIONS_MOST>, PictureFault>
    requires unit { length unit.now ≤ UNIT_BYTES_MOST }
    requires before { MayPrecede (option_copied before) }
    requires coarser { length coarser.now < VERSIONS_MOST }
    ensures { MatchResult result (λ sizes. AreSizes (option_copied before.entry) unit.now coarser.now sizes.items)
        (IsRefusedAs (option_copied before.entry) unit.now) }
{
    let mut ladder = Ladder::new();
    match size_picture(alloc, unit, before, coarser, &mut ladder) {
        Ok(sized) => Ok(sized.sizes),
        Err(fault) => Err(fault),
    }
}

/// The same with the headers of the picture, for which `check_picture` of `picture_reader` need not be asked too: it answers the same
/// headers and refuses the same units. The ladder is lent from picture to picture, and the answer is the same with any.
pub fn size_picture(
    alloc: Global,
    unit: &[u8],
    before: Option<&SeqState>,
    coarser: &[u16],
    ladder: &mut Ladder,
) -> Result<SizedPicture, PictureFault>
    requires unit { length unit.now ≤ UNIT_BYTES_MOST }
    requires before { MayPrecede (option_copied before) }
    requires coarser { length coarser.now < VERSIONS_MOST }
    ensures { MatchResult result (IsSizedPicture (option_copied before.entry) unit.now coarser.now) (IsRefusedAs (option_copied before.entry) unit.now) }
{
    let mut cursor = match UnitCursor::new(unit, before) {
        Ok(cursor) => cursor,
        Err(fault) => return Err(fault),
    };
    let mut lent = Lent::new();
    let mut slice = SliceRead::new(&cursor.headers.coding);
    let mut sizes = no_sizes(coarser);
    'slices: loop {
        let part = match cursor.next(unit) {
            Ok(part) => part,
            Err(fault) => return Err(fault),
        };
        match part {
            UnitPart::End { sequence_end } => {
                let around = cursor.headers.slices_at + end_bytes(sequence_end);
                return Ok(SizedPicture {
                    headers: cursor.headers,
                    sizes: all_sizes(unit.len() as u64, around, sizes.as_slice()),
                });
            }
            UnitPart::Slice { row, at } => {
                let bytes = bytes_from(unit, at);
                let picture = PictureParameters {
                    seq: &cursor.headers.seq,
                    coding: &cursor.headers.coding,
                };
                match read_and_count(
                    alloc, bytes, picture, coarser, ladder, &mut lent, &mut slice,
                ) {
                    Ok(()) => {
                        cursor = cursor.past(unit, row, at, slice.bits, slice.span);
                        add_slice(&slice, sizes.as_mut_slice());
                    }
                    Err(fault) => return Err(cursor.fault_of(unit, row, at, fault)),
                }
            }
        }
    }
}

/// The bytes of a sequence end code, where one stands behind the slices.
fn end_bytes(sequence_end: bool) -> u64
    ensures value { result ≡ (if sequence_end then 4 else 0) }
    ensures few { result ≤ 4 }
{
    if sequence_end { 4 } else { 0 }
}

/// The bytes from this one on.
pub fn bytes_from(unit: &[u8], first: usize) -> &[u8]
    requires { first ≤ length unit.now }
    ensures { result.now ≡ drop first unit.now }
{
    &unit[first..]
}
