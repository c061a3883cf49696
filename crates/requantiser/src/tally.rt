//! What becomes of the coefficients of a macroblock in several versions at once, counted and not made.
ghost use Rattle.std.specs.Prelude.{◌≡◌, ◌<◌};
ghost use Rattle.quant_math.specs.Levels.{coarser_level};
ghost use Rattle.picture_grammar.specs.Block.{first_place};
ghost use Rattle.picture_grammar.specs.Picture.{AreWeights};
ghost use Rattle.requantiser.specs.Private.Changes.{change_in, level_change, new_level_in};
ghost use Rattle.syntax_types.specs.declared.block.BlockWay.{BlockWay as WayOf};
ghost use Rattle.requantiser.specs.Private.Counts.{EachIs, EachWent, with_squares};
ghost use Rattle.requantiser.specs.Private.Lengths.{table_number as number_of};
ghost use Rattle.requantiser.specs.Private.Shapes.{FitBlock};
ghost use Rattle.requantiser.specs.Private.Tallies.{HasRoom, IsBlockTallied, IsCounted, IsCountedBlock, StartsBlock};

use crate::block::weight_in_scan;
use crate::code_lengths::{TABLES, table_at, table_number};
use crate::codes::Target;
use crate::counts::{Counts, add_squares};
use crate::ladder::Ladder;
use crate::level::{Coefficient, Rescaling};
use crate::targets::Targets;
use syntax_types::{BLOCK_PLACES, BlockWay, RunLevel};

/// Versions that are counted at once, at most.
pub const VERSIONS_AT_ONCE: usize = 8;

/// What was counted of the coefficients of a macroblock in one version.
#[derive(Clone, Copy)]
pub struct Tally {
    pub target: Target,
    /// The place behind the last coefficient of the block that stays, and the first place where none does.
    pub next: u8,
    /// The pattern of the blocks so far.
    pub pattern: u8,
    /// The bits of coefficients and of ends of blocks, beyond those of blocks without coefficients.
    pub bits: u32,
    /// The sum of the squares of the differences of the coefficients.
    pub distortion: u64,
}

impl Tally {
    /// Nothing is counted.
    pub fn empty() -> Tally
        ensures { result.bits ≡ 0 }
    {
        Tally {
            target: Target { code: 1, scale: 1 },
            next: 0,
            pattern: 0,
            bits: 0,
            distortion: 0,
        }
    }
}

/// Counts a block in all versions.
pub fn add_block(
    counts: &mut Counts,
    targets: &Targets,
    way: BlockWay,
    rescaling: Rescaling,
    weights: &[u8; BLOCK_PLACES],
    pairs: &[RunLevel],
    ladder: &mut Ladder,
)
    requires intra { rescaling.intra ≡ way.intra }
    requires weights { AreWeights weights.now }
    requires places { FitBlock (first_place way) pairs.now }
    requires room { EachIs (StartsBlock way) targets.now counts.old }
    ensures { EachWent (λ before behind. IsBlockTallied way (new_level_in weights.now rescaling.alternate rescaling.intra rescaling.from before.target.scale)
        (change_in weights.now rescaling.alternate rescaling.intra rescaling.from before.target.scale) pairs.now before behind) targets.now counts.old counts.new }
{
    if pairs.is_empty() {
        counts.end_empty_block();
        return;
    }
    add_coefficients(counts, targets, way, rescaling, weights, pairs, ladder);
    counts.end_block(way);
}

/// Counts a coefficient in all versions, its squares in sums of their own, whose bits are those of the table with this number, the one of its place.
#[inline]
fn add_coefficient(
    counts: &mut Counts,
    squares: &mut [u32; VERSIONS_AT_ONCE],
    targets: &Targets,
    table: usize,
    rescaling: &Rescaling,
    coefficient: Coefficient,
    ladder: &mut Ladder,
)
    requires table { table < TABLES }
    requires room { EachIs (HasRoom coefficient.at) targets.now (with_squares counts.old squares.old) }
    ensures { (way : WayOf) → table ≡ number_of way coefficient.at → EachWent (λ before behind. IsCounted way coefficient.at (coarser_level coefficient.level coefficient.weight rescaling.now.from before.target.scale rescaling.now.intra)
        (level_change coefficient.level coefficient.weight rescaling.now.from before.target.scale rescaling.now.intra) before behind) targets.now (with_squares counts.old squares.old) (with_squares counts.new squares.new) }
{
    let rung = ladder.rungs.rung_of(coefficient, rescaling, targets);
    add_squares(squares, &rung.squares);
    let at = u32::from(coefficient.at);
    counts.add_sizes(table, at, rung, &mut ladder.lengths);
}

/// Counts the coefficients of a block in all versions.
fn add_coefficients(
    counts: &mut Counts,
    targets: &Targets,
    way: BlockWay,
    rescaling: Rescaling,
    weights: &[u8; BLOCK_PLACES],
    pairs: &[RunLevel],
    ladder: &mut Ladder,
)
    requires intra { rescaling.intra ≡ way.intra }
    requires weights { AreWeights weights.now }
    requires places { FitBlock (first_place way) pairs.now }
    requires room { EachIs (StartsBlock way) targets.now counts.old }
    ensures { EachWent (λ before behind. IsCountedBlock way (new_level_in weights.now rescaling.alternate rescaling.intra rescaling.from before.target.scale)
        (change_in weights.now rescaling.alternate rescaling.intra rescaling.from before.target.scale) pairs.now before behind) targets.now counts.old counts.new }
{
    let first = table_number(way, 0);
    let later = table_number(way, 1);
    let mut place = u8::from(way.intra);
    let mut squares = counts.squares;
    for pair in pairs {
        let at = place + pair.run;
        let weight = weight_in_scan(weights, rescaling.alternate, at);
        let coefficient = Coefficient {
            level: pair.level,
            weight,
            at,
        };
        let table = table_at(first, later, at);
        add_coefficient(
            counts,
            &mut squares,
            targets,
            table,
            &rescaling,
            coefficient,
            ladder,
        );
        place = at + 1;
    }
    counts.squares = squares;
}
