ghost use Rattle.std.specs.Prelude.{◌≡◌, ◌≤◌, ◌<◌, ◌+◌, ◌++◌, ◌==◌, ◌&&◌, not, true, IfOk, OnOk, unwrap_or};
ghost use Rattle.std.specs.Option.{option_to_list};
ghost use Rattle.std.specs.List.{sum_by};
ghost use Rattle.quant_math.specs.Scales.{IsCode};
ghost use Rattle.requantiser.specs.Levels.{HasWeights};
ghost use Rattle.requantiser.specs.Slices.{end_column};
ghost use Rattle.requantiser.specs.VersionState.{IsStateBehind};
ghost use Rattle.requantiser.specs.Private.Shapes.{IsWalkable, AreWalkable};
ghost use Rattle.requantiser.specs.Private.Walk.{coarsened_macroblock, coarsened_macroblocks, coarsened_slice};

use crate::kept_levels::KeptLevels;
use crate::step::step;
use crate::version_state::VersionState;
use arrayvec::ArrayVec;
use std::alloc::Global;
use syntax_types::{
    Block, FRAME_BASED, Kind, ListOf, Macroblock, OutOfMemory, PictureParameters, Slice, SliceInfo,
};

/// The slice of the version at `m` sixteenths.
pub fn coarsen_slice(
    alloc: Global,
    picture: PictureParameters<'_>,
    m: u16,
    slice: &Slice,
) -> Result<Slice, OutOfMemory>
    requires weights { HasWeights picture.seq.now }
    requires code { IsCode slice.now.code }
    requires walkable { AreWalkable slice.now.macroblocks }
    requires room { end_column slice.now ≤ u16.MAX }
    ensures { IfOk result (λ made. made ≡ coarsened_slice picture.entry.seq.now picture.entry.coding.now m slice.now) }
{
    let state = VersionState::new(picture.coding, m, slice.code);
    let macroblocks = coarsen_macroblocks(alloc, picture, state, slice.macroblocks.as_slice())?;
    let info = copy_info(alloc, &slice.info)?;
    Ok(Slice {
        row: slice.row,
        code: state.version_code,
        info,
        macroblocks,
    })
}

/// What becomes of the macroblocks of a slice, from the state at its start.
fn coarsen_macroblocks(
    alloc: Global,
    picture: PictureParameters<'_>,
    start: VersionState,
    macroblocks: &[Macroblock],
) -> Result<ListOf<Macroblock>, OutOfMemory>
    requires weights { HasWeights picture.seq.now }
    requires walkable { AreWalkable macroblocks.now }
    requires room { start.skipped + sum_by (λ m. m.skipped_before + 1) macroblocks.now ≤ u16.MAX }
    ensures { IfOk result (λ made. made ≡ coarsened_macroblocks picture.entry.seq.now picture.entry.coding.now start.m true start.source_code start.version_code start.skipped macroblocks.now) }
{
    let mut made = ListOf::new(alloc);
    let mut state = start;
    let mut levels = KeptLevels::new();
    for i in 0..macroblocks.len() {
        let inner = is_inner(i, macroblocks.len());
        add_macroblock(
            &mut levels,
            picture,
            inner,
            &mut state,
            &macroblocks[i],
            &mut made,
        )?;
    }
    Ok(made)
}

/// The macroblock with this index is neither the first nor the last one of so many.
fn is_inner(i: usize, count: usize) -> bool
    requires { i < count }
    ensures { result ≡ (not (i == 0) && not (i + 1 == count)) }
{
    i != 0 && i + 1 != count
}

/// Adds what becomes of a macroblock, if it isn't skipped.
fn add_macroblock(
    levels: &mut KeptLevels,
    picture: PictureParameters<'_>,
    inner: bool,
    state: &mut VersionState,
    from: &Macroblock,
    made: &mut ListOf<Macroblock>,
) -> Result<(), OutOfMemory>
    requires weights { HasWeights picture.seq.now }
    requires walkable { IsWalkable from.now }
    requires room { state.old.skipped + from.now.skipped_before < u16.MAX }
    ensures made { OnOk result (made.new ≡ made.old ++ option_to_list (coarsened_macroblock picture.entry.seq.now picture.entry.coding.now state.old.m inner
        (unwrap_or from.now.code state.old.source_code) state.old.version_code (state.old.skipped + from.now.skipped_before) from.now)) }
    ensures behind { IsStateBehind from.now (coarsened_macroblock picture.entry.seq.now picture.entry.coding.now state.old.m inner
        (unwrap_or from.now.code state.old.source_code) state.old.version_code (state.old.skipped + from.now.skipped_before) from.now) state.old state.new }
{
    let mut to = Macroblock::empty();
    let coded = step(levels, picture, inner, state, from, &mut to);
    if coded {
        made.push(to)?;
    }
    Ok(())
}

fn copy_info(alloc: Global, info: &Option<SliceInfo>) -> Result<Option<SliceInfo>, OutOfMemory>
    ensures { IfOk result (λ made. made ≡ info.now) }
{
    match info {
        None => Ok(None),
        Some(info) => {
            let bytes = info.bytes.as_slice().to_vec(alloc)?;
            Ok(Some(SliceInfo {
                intra_slice: info.intra_slice,
                reserved: info.reserved,
                bytes: ListOf::from_vec(bytes),
            }))
        }
    }
}
