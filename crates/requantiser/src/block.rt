ghost use Rattle.std.specs.Prelude.{◌≡◌, ◌<◌, ◌≤◌, ◌++◌, ◌^◌, [], unsigned_abs, if◌then◌else◌};
ghost use Rattle.arrayvec.specs.ArrayVec.{array_vec_len};
ghost use Rattle.picture_grammar.specs.Picture.{AreWeights};
ghost use Rattle.requantiser.specs.Levels.{HasWeights, weight_at as weight_at_place};
ghost use Rattle.requantiser.specs.Private.Changes.{new_level_in, rescaled_block, weight_in};
ghost use Rattle.requantiser.specs.Private.Shapes.{FitBlock};
ghost use Rattle.requantiser.specs.Private.Walk.{coarsened_pairs, kept_pair, zeros_behind};

use crate::kept_levels::KeptLevels;
use crate::level::{Coefficient, Rescaling};
use arrayvec::ArrayVec;
use quant_math::scan;
use syntax_types::{BLOCK_PLACES, Block, PictureParameters, RunLevel, SeqState};

/// Writes a block under another scale into one that is lent.
pub fn coarsen_block(
    levels: &mut KeptLevels,
    weights: &[u8; BLOCK_PLACES],
    rescaling: Rescaling,
    from: &Block,
    to: &mut Block,
)
    requires weights { AreWeights weights.now }
    requires places { FitBlock (if rescaling.intra then 1 else 0) from.now.pairs.items }
    ensures { to.new ≡ rescaled_block weights.now rescaling.alternate rescaling.intra rescaling.from rescaling.to from.now }
{
    to.dc = from.dc;
    if from.pairs.is_empty() {
        to.pairs.clear();
        return;
    }
    coarsen_pairs(
        levels,
        weights,
        rescaling,
        from.pairs.as_slice(),
        &mut to.pairs,
    );
}

/// The matrix of intra or non-intra blocks.
pub fn matrix(seq: &SeqState, intra: bool) -> &[u8; BLOCK_PLACES]
    requires weights { HasWeights seq.now }
    ensures value { result.now ≡ (if intra then seq.now.intra else seq.now.non_intra) }
    ensures weighted { AreWeights result.now }
{
    if intra { &seq.intra } else { &seq.non_intra }
}

/// Writes the coefficients of a block under another scale. It isn't inlined, so that its loop has the registers.
#[inline(never)]
fn coarsen_pairs(
    levels: &mut KeptLevels,
    weights: &[u8; BLOCK_PLACES],
    rescaling: Rescaling,
    pairs: &[RunLevel],
    to: &mut ArrayVec<RunLevel, BLOCK_PLACES>,
)
    requires weights { AreWeights weights.now }
    requires places { FitBlock (if rescaling.intra then 1 else 0) pairs.now }
    ensures { to.new.items ≡ coarsened_pairs (new_level_in weights.now rescaling.alternate rescaling.intra rescaling.from rescaling.to) (if rescaling.intra then 1 else 0) 0 pairs.now }
{
    to.clear();
    let mut place = u8::from(rescaling.intra);
    let mut waiting = 0;
    for pair in pairs {
        let at = place + pair.run;
        let weight = weight_in_scan(weights, rescaling.alternate, at);
        let coefficient = Coefficient {
            level: pair.level,
            weight,
            at,
        };
        let level = levels.coarser(coefficient, rescaling);
        waiting = add_level(to, waiting + pair.run, level);
        place = at + 1;
    }
}

/// Adds a coefficient behind so many zeros, unless it is 0, and gives the zeros that wait then.
#[inline]
fn add_level(to: &mut ArrayVec<RunLevel, BLOCK_PLACES>, zeros: u8, level: i16) -> u8
    requires zeros { zeros < BLOCK_PLACES }
    requires room { array_vec_len to.old < BLOCK_PLACES }
    ensures items { to.new.items ≡ to.old.items ++ kept_pair zeros level }
    ensures waiting { result ≡ zeros_behind zeros level }
{
    if level == 0 {
        zeros + 1
    } else {
        to.push(RunLevel { run: zeros, level });
        0
    }
}

/// The weight of a place of the scan (ISO/IEC 13818-2, 7.3 and 7.4.2.1).
pub fn weight_at(picture: PictureParameters<'_>, intra: bool, place: u8) -> u8
    requires weights { HasWeights picture.seq.now }
    requires place { place < BLOCK_PLACES }
    ensures value { result ≡ weight_at_place picture.entry.seq.now picture.entry.coding.now intra place }
    ensures weighted { 0 < result }
{
    let index = usize::from(scan(picture.coding.alternate_scan, place));
    if intra {
        picture.seq.intra[index]
    } else {
        picture.seq.non_intra[index]
    }
}

/// The weight of a place of the scan in a matrix.
#[inline]
pub fn weight_in_scan(weights: &[u8; BLOCK_PLACES], alternate: bool, place: u8) -> u8
    requires weights { AreWeights weights.now }
    requires place { place < BLOCK_PLACES }
    ensures value { result ≡ weight_in weights.now alternate place }
    ensures weighted { 0 < result }
{
    weights[usize::from(scan(alternate, place))]
}
