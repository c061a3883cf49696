//! The check of a unit, with the sizes of its versions where they are wanted.
ghost use Rattle.std.specs.Prelude.{◌≡◌, ◌≤◌, ◌<◌, ◌⊎◌, ◌^◌, ◌++◌, ◌∷◌, [], None, length, IfOk, IfErr, OnOk};
ghost use Rattle.std.specs.Option.{option_copied};
ghost use Rattle.picture_grammar.specs.Picture.{MayPrecede};
ghost use Rattle.picture_reader.specs.Picture.{IsRefusedAs, SpellsHeaders};
ghost use Rattle.picture_reader.specs.PictureFault.{refusal_told};
ghost use Rattle.program_reader.specs.Private.SizedUnits.{AreSizedBehind, IsSizedBehind};

use arrayvec::ArrayVec;
use picture_reader::{Headers, PictureFault, check_picture};
use std::alloc::{AllocError, Global};
use syntax_types::SeqState;
use version_maker::{Ladder, UNIT_BYTES_MOST, VersionSize, size_picture};
use version_table::limits::VERSIONS_MOST;

/// The sizes of all versions of a unit.
#[derive(Drop)]
pub struct UnitSizes {
    /// Of each its bytes, and its distortion as the sum of squares that `VersionSize` says: the unit itself, then one for each ratio.
    pub versions: ArrayVec<VersionSize, VERSIONS_MOST>,
}

/// Whether the sizes of the versions of units are wanted, and at which ratios, in sixteenths.
#[derive(Clone, Copy)]
pub struct SizesWanted<'a> {
    pub are_wanted: bool,
    pub coarser: &'a [u16],
}

/// The headers of the picture of a unit, as `check_picture` answers. Where sizes are wanted, those of the unit are put behind the
/// others, unless it is longer than a unit may be; it is read once for both.
pub fn check_unit(
    alloc: Global,
    unit: &[u8],
    before: Option<&SeqState>,
    wanted: &SizesWanted<'_>,
    sizes: &mut Vec<UnitSizes>,
    ladder: &mut Ladder,
) -> Result<Headers, PictureFault>
    requires unit { length unit.now ≤ 2 ^ 60 }
    requires before { MayPrecede (option_copied before) }
    requires coarser { length wanted.now.coarser.now < VERSIONS_MOST }
    ensures ok { IfOk result (SpellsHeaders (option_copied before.entry) unit.now) }
    ensures refused { IfErr result (IsRefusedAs (option_copied before.entry) unit.now) }
    ensures sizes { IfOk result (λ _. IsSizedBehind (option_copied before.entry) unit.now wanted.now.coarser.now wanted.now.are_wanted sizes.old.items sizes.new.items) }
    ensures same { IfErr result (λ fault. (refusal_told fault ≡ None) ⊎ (sizes.new.items ≡ sizes.old.items)) }
{
    if !wanted.are_wanted {
        return check_alone(alloc, unit, before);
    }
    if unit.len() > UNIT_BYTES_MOST {
        return check_alone(alloc, unit, before);
    }
    size_unit(alloc, unit, before, wanted.coarser, sizes, ladder)
}

/// The headers of the picture of a unit, as `check_picture` answers.
fn check_alone(
    alloc: Global,
    unit: &[u8],
    before: Option<&SeqState>,
) -> Result<Headers, PictureFault>
    requires unit { length unit.now ≤ 2 ^ 60 }
    ensures ok { IfOk result (SpellsHeaders (option_copied before.entry) unit.now) }
    ensures refused { IfErr result (IsRefusedAs (option_copied before.entry) unit.now) }
{
    match check_picture(alloc, unit, before) {
        Ok(headers) => Ok(headers),
        Err(fault) => Err(fault),
    }
}

/// The same of a unit whose sizes are put behind the others.
fn size_unit(
    alloc: Global,
    unit: &[u8],
    before: Option<&SeqState>,
    coarser: &[u16],
    sizes: &mut Vec<UnitSizes>,
    ladder: &mut Ladder,
) -> Result<Headers, PictureFault>
    requires unit { length unit.now ≤ UNIT_BYTES_MOST }
    requires before { MayPrecede (option_copied before) }
    requires coarser { length coarser.now < VERSIONS_MOST }
    ensures ok { IfOk result (SpellsHeaders (option_copied before.entry) unit.now) }
    ensures refused { IfErr result (IsRefusedAs (option_copied before.entry) unit.now) }
    ensures sizes { IfOk result (λ _. AreSizedBehind (option_copied before.entry) unit.now coarser.now sizes.old.items sizes.new.items) }
    ensures same { IfErr result (λ fault. (refusal_told fault ≡ None) ⊎ (sizes.new.items ≡ sizes.old.items)) }
{
    let sized = match size_picture(alloc, unit, before, coarser, ladder) {
        Ok(sized) => sized,
        Err(fault) => return Err(fault),
    };
    match put_behind(sizes, sized.sizes) {
        Ok(()) => Ok(sized.headers),
        Err(AllocError) => Err(PictureFault::OutOfMemory),
    }
}

/// Puts the sizes of one more unit behind the others.
fn put_behind(
    sizes: &mut Vec<UnitSizes>,
    versions: ArrayVec<VersionSize, VERSIONS_MOST>,
) -> Result<(), AllocError>
    ensures { OnOk result (sizes.new.items ≡ sizes.old.items ++ record { versions = versions } ∷ []) }
{
    sizes.push(UnitSizes { versions })?;
    Ok(())
}
