//! The coefficients of a macroblock, counted in several versions at once.
ghost use Rattle.std.specs.Prelude.{◌≡◌, ◌<◌, ◌≤◌, ◌^◌, ℕ, length, slice_index, slice_index_or, unwrap_or};
ghost use Rattle.quant_math.specs.Scales.{IsCode};
ghost use Rattle.picture_grammar.specs.Block.{first_place};
ghost use Rattle.requantiser.specs.declared.tally.Tally.{Tally as TallyOf};
ghost use Rattle.requantiser.specs.Levels.{HasWeights, scale_of};
ghost use Rattle.requantiser.specs.Tallies.{IsTallyOf};
ghost use Rattle.requantiser.specs.VersionState.{IsSpelledMacroblock};
ghost use Rattle.requantiser.specs.Private.Changes.{block_change};
ghost use Rattle.requantiser.specs.Private.Counts.{EachIs, EachWent, IsTheTally};
ghost use Rattle.requantiser.specs.Private.Shapes.{FitBlock, HasShape, IsMeasured};
ghost use Rattle.requantiser.specs.Private.Tallies.{AreBlocksTallied, IsBlockTallied, IsStart, StartsBlock};
ghost use Rattle.requantiser.specs.Private.Walk.{new_level};

use crate::block::matrix;
use crate::counts::Counts;
use crate::ladder::Ladder;
use crate::level::Rescaling;
use crate::step::code_in_force;
use crate::tally::{Tally, VERSIONS_AT_ONCE, add_block};
use crate::targets::Targets;
use picture_grammar::stands::block_way;
use quant_math::scale;
use syntax_types::{BLOCKS, Block, BlockWay, Macroblock, PictureParameters};

/// Counts the coefficients of a macroblock that some bits spell, before which this code is in force, in the version at each
/// of these ratios, in sixteenths and in their order. It gives the code that is in force in the macroblock.
pub fn tally_macroblock(
    picture: PictureParameters<'_>,
    before: u8,
    ratios: &[u16],
    from: &Macroblock,
    tallies: &mut [Tally; VERSIONS_AT_ONCE],
    ladder: &mut Ladder,
) -> u8
    requires weights { HasWeights picture.seq.now }
    requires before { IsCode before }
    requires spelled { IsSpelledMacroblock picture.coding.now from.now }
    requires few { length ratios.now ≤ VERSIONS_AT_ONCE }
    ensures code { result ≡ unwrap_or from.now.code before }
    ensures is_code { IsCode result }
    ensures tallies { (k : ℕ) (d : TallyOf) → k < length ratios.now → IsTallyOf picture.entry.seq.now picture.entry.coding.now (unwrap_or from.now.code before) (slice_index ratios.now k) from.now (slice_index_or tallies.new k d) }
{
    let code = code_in_force(from.code, before);
    if ratios.is_empty() {
        return code;
    }
    let targets = ladder.targets.of(picture.coding.q_scale_type, code, ratios);
    let mut counts = Counts::new(from.kind.intra);
    add_blocks(picture, code, from, &targets, &mut counts, ladder);
    write_tallies(&targets, &counts, ratios.len(), tallies);
    code
}

/// Writes the tallies of the first so many versions.
fn write_tallies(
    targets: &Targets,
    counts: &Counts,
    count: usize,
    tallies: &mut [Tally; VERSIONS_AT_ONCE],
)
    requires count { count ≤ VERSIONS_AT_ONCE }
    requires next { (k : ℕ) → k < 8 → slice_index counts.now.next k ≤ 64 }
    requires patterns { (k : ℕ) → k < 8 → slice_index counts.now.patterns k < 2 ^ 6 }
    ensures { (k : ℕ) (d : TallyOf) → k < count → IsTheTally targets.now counts.now k (slice_index_or tallies.new k d) }
{
    for k in 0..count {
        tallies[k] = counts.tally(targets, k);
    }
}

/// Counts the blocks of a macroblock in all versions.
fn add_blocks(
    picture: PictureParameters<'_>,
    code: u8,
    from: &Macroblock,
    targets: &Targets,
    counts: &mut Counts,
    ladder: &mut Ladder,
)
    requires weights { HasWeights picture.seq.now }
    requires code { IsCode code }
    requires shape { HasShape from.now }
    requires measured { IsMeasured from.now }
    requires start { EachIs (IsStart picture.coding.now from.now.kind.intra) targets.now counts.old }
    ensures { EachWent (AreBlocksTallied picture.entry.seq.now picture.entry.coding.now from.now.kind code from.now.blocks 6) targets.now counts.old counts.new }
{
    for i in 0..BLOCKS {
        let way = block_way(picture.coding, from.kind, i);
        add_block_of(picture, way, code, &from.blocks[i], targets, counts, ladder);
    }
}

/// Counts a block under this code in all versions.
fn add_block_of(
    picture: PictureParameters<'_>,
    way: BlockWay,
    code: u8,
    block: &Block,
    targets: &Targets,
    counts: &mut Counts,
    ladder: &mut Ladder,
)
    requires weights { HasWeights picture.seq.now }
    requires code { IsCode code }
    requires places { FitBlock (first_place way) block.now.pairs.items }
    requires room { EachIs (StartsBlock way) targets.now counts.old }
    ensures { EachWent (λ before behind. before.target.scale ≡ scale_of picture.entry.coding.now before.target.code →
        IsBlockTallied way (new_level picture.entry.seq.now picture.entry.coding.now way code before.target.code) (block_change picture.entry.seq.now picture.entry.coding.now way code before.target.code) block.now.pairs.items before behind)
        targets.now counts.old counts.new }
{
    let from = scale(picture.coding.q_scale_type, code);
    let rescaling = Rescaling {
        alternate: picture.coding.alternate_scan,
        intra: way.intra,
        from,
        to: from,
    };
    let weights = matrix(picture.seq, way.intra);
    add_block(
        counts,
        targets,
        way,
        rescaling,
        weights,
        block.pairs.as_slice(),
        ladder,
    );
}
