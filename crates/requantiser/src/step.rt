ghost use Rattle.std.specs.Prelude.{◌≡◌, ◌<◌, ◌≤◌, ◌+◌, ◌^◌, ℕ, Option, true, false, if◌then◌else◌, unwrap_or};
ghost use Rattle.quant_math.specs.Scales.{IsCode, IsMappedCode};
ghost use Rattle.requantiser.specs.Distortion.{coefficient_of_macroblock, difference_of};
ghost use Rattle.requantiser.specs.Levels.{HasWeights};
ghost use Rattle.requantiser.specs.Macroblocks.{IsCoarserAt};
ghost use Rattle.requantiser.specs.VersionState.{IsSpelledMacroblock, IsStateBehind, made_of};
ghost use Rattle.requantiser.specs.Private.Shapes.{HasShape, IsMeasured, IsSide};
ghost use Rattle.requantiser.specs.Private.Walk.{mapped_code, coarsened_macroblock};

use crate::codes::Codes;
use crate::difference::{Side, difference_of_one, difference_of_two};
use crate::kept_levels::KeptLevels;
use crate::macroblock::{make_blocks, write_head};
use crate::version_room::VersionRoom;
use crate::version_state::VersionState;
use quant_math::{LAST_CODE, WHOLE_RATIO, map_code};
use syntax_types::{Macroblock, PictureParameters};

/// What became of a macroblock in a version.
#[derive(Clone, Copy)]
pub struct Coarsened {
    /// It is coded there, and not skipped.
    pub coded: bool,
    /// The sum of the squares of the differences of its coefficients.
    pub distortion: u64,
}

/// Writes what becomes of a macroblock that some bits spell into room that is lent, with its distortion; where it is skipped
/// in the version, the macroblock there says nothing. An inner macroblock is neither the first nor the last one of its slice
/// that isn't skipped. All skipped macroblocks of a row fit their number.
pub fn coarsen_macroblock(
    picture: PictureParameters<'_>,
    inner: bool,
    state: &mut VersionState,
    from: &Macroblock,
    to: &mut VersionRoom,
) -> Coarsened
    requires weights { HasWeights picture.seq.now }
    requires spelled { IsSpelledMacroblock picture.coding.now from.now }
    requires room { state.old.skipped + from.now.skipped_before < u16.MAX }
    ensures at { IsCoarserAt picture.entry.seq.now picture.entry.coding.now state.old.m inner state.old.source_code state.old.version_code (Option.Some from.now) (made_of result.coded to.new.macroblock) }
    ensures behind { IsStateBehind from.now (made_of result.coded to.new.macroblock) state.old state.new }
    ensures distortion { result.distortion ≡ difference_of (coefficient_of_macroblock picture.entry.seq.now picture.entry.coding.now state.new.source_code (Option.Some from.now))
        (coefficient_of_macroblock picture.entry.seq.now picture.entry.coding.now state.new.version_code (made_of result.coded to.new.macroblock)) }
    ensures bound { result.distortion ≤ 2 ^ 41 }
{
    let coded = step(
        &mut to.levels,
        picture,
        inner,
        state,
        from,
        &mut to.macroblock,
    );
    let distortion = distortion_of(picture, *state, from, coded, &to.macroblock);
    Coarsened { coded, distortion }
}

/// Writes what becomes of a macroblock as `coarsen_macroblock` does, and says whether it is coded in the version, and not
/// skipped. Its distortion isn't added up.
pub fn requantise_macroblock(
    picture: PictureParameters<'_>,
    inner: bool,
    state: &mut VersionState,
    from: &Macroblock,
    to: &mut VersionRoom,
) -> bool
    requires weights { HasWeights picture.seq.now }
    requires spelled { IsSpelledMacroblock picture.coding.now from.now }
    requires room { state.old.skipped + from.now.skipped_before < u16.MAX }
    ensures at { IsCoarserAt picture.entry.seq.now picture.entry.coding.now state.old.m inner state.old.source_code state.old.version_code (Option.Some from.now) (made_of result to.new.macroblock) }
    ensures behind { IsStateBehind from.now (made_of result to.new.macroblock) state.old state.new }
{
    step(
        &mut to.levels,
        picture,
        inner,
        state,
        from,
        &mut to.macroblock,
    )
}

/// The same of a macroblock of the right shape, by the walk.
pub fn step(
    levels: &mut KeptLevels,
    picture: PictureParameters<'_>,
    inner: bool,
    state: &mut VersionState,
    from: &Macroblock,
    to: &mut Macroblock,
) -> bool
    requires weights { HasWeights picture.seq.now }
    requires shape { HasShape from.now }
    requires measured { IsMeasured from.now }
    requires room { state.old.skipped + from.now.skipped_before < u16.MAX }
    ensures made { (if result then Option.Some to.new else Option.None) ≡ coarsened_macroblock picture.entry.seq.now picture.entry.coding.now state.old.m inner
        (unwrap_or from.now.code state.old.source_code) state.old.version_code (state.old.skipped + from.now.skipped_before) from.now }
    ensures ratio { state.new.m ≡ state.old.m }
    ensures source_code { state.new.source_code ≡ unwrap_or from.now.code state.old.source_code }
    ensures version_code { state.new.version_code ≡ (if result then unwrap_or to.new.code state.old.version_code else state.old.version_code) }
    ensures skipped { state.new.skipped ≡ (if result then 0 else state.old.skipped + from.now.skipped_before + 1) }
    ensures placed { result ≡ true → to.new.skipped_before ≡ state.old.skipped + from.now.skipped_before }
    ensures source { IsSide picture.entry.seq.now state.new.source_code from.now }
    ensures version { result ≡ true → IsSide picture.entry.seq.now state.new.version_code to.new }
{
    let in_force = code_in_force(from.code, state.source_code);
    let mapped = mapped(picture.coding.q_scale_type, state.m, in_force);
    let skipped = state.skipped + from.skipped_before;
    state.source_code = in_force;
    let codes = Codes { in_force, mapped };
    let coded = make_blocks(levels, picture, codes, inner, from, &mut to.blocks);
    if !coded {
        state.skipped = skipped + 1;
        return false;
    }
    write_head(
        picture.coding,
        mapped,
        state.version_code,
        skipped,
        from,
        to,
    );
    state.version_code = code_in_force(to.code, state.version_code);
    state.skipped = 0;
    true
}

/// The distortion of a macroblock in a version in which it is coded or skipped, by the codes in force, over all places.
fn distortion_of(
    picture: PictureParameters<'_>,
    state: VersionState,
    from: &Macroblock,
    coded: bool,
    to: &Macroblock,
) -> u64
    requires source { IsSide picture.seq.now state.source_code from.now }
    requires version { coded ≡ true → IsSide picture.seq.now state.version_code to.now }
    ensures value { result ≡ difference_of (coefficient_of_macroblock picture.entry.seq.now picture.entry.coding.now state.source_code (Option.Some from.now))
        (coefficient_of_macroblock picture.entry.seq.now picture.entry.coding.now state.version_code (made_of coded to.now)) }
    ensures bound { result ≤ 2 ^ 41 }
{
    let source = Side {
        picture,
        code: state.source_code,
        macroblock: from,
    };
    if !coded {
        return difference_of_one(source);
    }
    let version = Side {
        picture,
        code: state.version_code,
        macroblock: to,
    };
    difference_of_two(source, version)
}

/// The code in force behind one that may be written.
pub fn code_in_force(written: Option<u8>, before: u8) -> u8
    requires written { (code : ℕ) → written ≡ Option.Some code → IsCode code }
    requires before { IsCode before }
    ensures value { result ≡ unwrap_or written before }
    ensures is_code { IsCode result }
{
    match written {
        Some(code) => code,
        None => before,
    }
}

/// The mapped code.
pub fn mapped(q_scale_type: bool, m: u16, code: u8) -> u8
    requires { IsCode code }
    ensures value { result ≡ mapped_code q_scale_type m code }
    ensures is_code { IsCode result }
{
    if q_scale_type {
        map_code(code, m, true)
    } else {
        mapped_in_steps(m, code)
    }
}

/// The mapped code where scales rise in equal steps: so many sixteenths of the code, rounded up.
fn mapped_in_steps(m: u16, code: u8) -> u8
    requires { IsCode code }
    ensures { IsMappedCode false code m result }
{
    let least = (u32::from(code) * u32::from(m)).div_ceil(WHOLE_RATIO);
    least.clamp(1, u32::from(LAST_CODE)) as u8
}
