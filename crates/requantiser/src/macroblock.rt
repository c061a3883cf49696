ghost use Rattle.std.specs.Prelude.{◌≡◌, ◌<◌, ◌≤◌, ◌^◌, ◌+◌, ◌&&◌, ℕ, Option, true, false, if◌then◌else◌, unwrap_or, IsTrue, ◌↔◌};
ghost use Rattle.quant_math.specs.Scales.{IsCode, IsMappedCode};
ghost use Rattle.syntax_types.specs.declared.block.Block.{Block as BlockOf};
ghost use Rattle.picture_grammar.specs.Macroblock.{no_block};
ghost use Rattle.requantiser.specs.Blocks.{no_blocks};
ghost use Rattle.requantiser.specs.Levels.{HasWeights};
ghost use Rattle.requantiser.specs.Macroblocks.{pattern_of as pattern_of_blocks, is_coded_without_motion as stands_without_motion};
ghost use Rattle.requantiser.specs.Private.Shapes.{FitBlock, HasShape, IsMeasured};
ghost use Rattle.requantiser.specs.Private.Walk.{coarsened_blocks, made_blocks, kept_blocks, first_of, first_coded as first_coded_block, are_empty as are_all_empty, with_blocks};

use crate::block::{coarsen_block, matrix};
use crate::codes::Codes;
use crate::head::Head;
use crate::kept_levels::KeptLevels;
use crate::level::Rescaling;
use arrayvec::ArrayVec;
use picture_grammar::stands::{has_dct_type, is_coded};
use quant_math::scale;
use syntax_types::{
    BLOCKS, Block, Kind, Macroblock, PicCoding, PictureParameters, RunLevel, VECTORS_MOST, Vector,
};

/// Writes the blocks that stand in the coarser picture for those of a macroblock, and says whether it is coded there, and
/// not skipped. Where all would be emptied in one that isn't skipped, one coefficient is kept.
pub fn make_blocks(
    levels: &mut KeptLevels,
    picture: PictureParameters<'_>,
    codes: Codes,
    inner: bool,
    from: &Macroblock,
    to: &mut [Block; BLOCKS],
) -> bool
    requires weights { HasWeights picture.seq.now }
    requires shape { HasShape from.now }
    requires measured { IsMeasured from.now }
    ensures { (if result then Option.Some to.new else Option.None) ≡ made_blocks picture.entry.seq.now picture.entry.coding.now inner codes.in_force codes.mapped from.now }
{
    coarsen_blocks(levels, picture, codes, from, to);
    if !is_emptied(from.kind, to) {
        return true;
    }
    if inner {
        return false;
    }
    keep_first(from, to);
    true
}

/// Writes the blocks of a macroblock under another code.
fn coarsen_blocks(
    levels: &mut KeptLevels,
    picture: PictureParameters<'_>,
    codes: Codes,
    from: &Macroblock,
    to: &mut [Block; BLOCKS],
)
    requires weights { HasWeights picture.seq.now }
    requires shape { HasShape from.now }
    requires measured { IsMeasured from.now }
    ensures { to.new ≡ coarsened_blocks picture.entry.seq.now picture.entry.coding.now from.now.kind codes.in_force codes.mapped from.now.blocks }
{
    let in_force = scale(picture.coding.q_scale_type, codes.in_force);
    let mapped = scale(picture.coding.q_scale_type, codes.mapped);
    let rescaling = Rescaling {
        alternate: picture.coding.alternate_scan,
        intra: from.kind.intra,
        from: in_force,
        to: mapped,
    };
    let weights = matrix(picture.seq, from.kind.intra);
    for i in 0..BLOCKS {
        coarsen_block(levels, weights, rescaling, &from.blocks[i], &mut to[i]);
    }
}

/// A macroblock without motion has no coefficients left in these blocks.
fn is_emptied(kind: Kind, blocks: &[Block; BLOCKS]) -> bool
    ensures { result ≡ (stands_without_motion kind && are_all_empty blocks.now) }
{
    is_coded_without_motion(kind) && are_empty(blocks)
}

/// A macroblock is coded with a pattern and without motion.
pub fn is_coded_without_motion(kind: Kind) -> bool
    ensures { result ≡ stands_without_motion kind }
{
    kind.pattern && !kind.intra && !kind.forward && !kind.backward
}

fn are_empty(blocks: &[Block; BLOCKS]) -> bool
    ensures { result ≡ are_all_empty blocks.now }
{
    blocks.iter().all(|block| block.pairs.is_empty())
}

/// Of the blocks of a macroblock that are all emptied, the first one that is coded keeps its first coefficient, with a
/// level of 1.
fn keep_first(from: &Macroblock, to: &mut [Block; BLOCKS])
    requires shape { HasShape from.now }
    requires measured { IsMeasured from.now }
    requires empty { to.old ≡ no_blocks }
    ensures { to.new ≡ kept_blocks from.now }
{
    let i = first_coded(from);
    keep_level(&from.blocks[i], &mut to[i]);
}

/// Writes the first coefficient of a block with a level of 1 into an empty one.
fn keep_level(from: &Block, to: &mut Block)
    requires fits { (start : ℕ) × FitBlock start from.now.pairs.items }
    requires empty { to.old ≡ no_block }
    ensures { to.new ≡ first_of from.now }
{
    if let Some(pair) = from.pairs.as_slice().first() {
        let level = pair.level.signum();
        to.pairs.push(RunLevel {
            run: pair.run,
            level,
        });
    }
}

/// The index of the first block that is coded.
fn first_coded(from: &Macroblock) -> usize
    ensures value { result ≡ first_coded_block from.now }
    ensures within { result < BLOCKS }
{
    for i in 0..BLOCKS {
        if is_coded(from.kind, from.pattern, i) {
            return i;
        }
    }
    0
}

/// Writes what a macroblock says in the coarser picture besides its blocks, which stand already.
pub fn write_head(
    coding: &PicCoding,
    mapped: u8,
    before: u8,
    skipped: u16,
    from: &Macroblock,
    to: &mut Macroblock,
)
    requires { IsCode mapped }
    ensures head { to.new ≡ with_blocks coding.now mapped before skipped from.now to.old.blocks }
    ensures code { (code : ℕ) → to.new.code ≡ Option.Some code → IsCode code }
{
    let pattern = written_pattern(from.kind.intra, pattern_of(&to.blocks));
    let head = Head::new(from.kind.intra, mapped, before, skipped, pattern);
    let kind = head.kind(from.kind);
    to.skipped_before = head.skipped_before;
    to.kind = kind;
    to.motion_type = from.motion_type;
    to.field_dct = has_dct_type(coding, kind) && from.field_dct;
    to.code = head.code;
    copy_vectors(&from.forward, &mut to.forward);
    copy_vectors(&from.backward, &mut to.backward);
    to.pattern = head.pattern;
}

/// The pattern that a macroblock says, which an intra one has none of.
pub fn written_pattern(intra: bool, pattern: u8) -> u8
    ensures { result ≡ (if intra then 0 else pattern) }
{
    if intra { 0 } else { pattern }
}

/// coded_block_pattern: a bit for each block, the first one the most significant (ISO/IEC 13818-2, 6.3.17.4).
fn pattern_of(blocks: &[Block; BLOCKS]) -> u8
    ensures value { result ≡ pattern_of_blocks blocks.now }
    ensures bits { result < 2 ^ BLOCKS }
{
    let mut pattern = 0;
    for block in blocks {
        pattern = 2 * pattern + u8::from(!block.pairs.is_empty());
    }
    pattern
}

fn copy_vectors(from: &ArrayVec<Vector, VECTORS_MOST>, to: &mut ArrayVec<Vector, VECTORS_MOST>)
    ensures { to.new.items ≡ from.now.items }
{
    to.clear();
    for vector in from.as_slice() {
        to.push(*vector);
    }
}
