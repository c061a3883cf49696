ghost use Rattle.std.specs.Prelude.{◌≡◌, ◌<◌, ◌≤◌, ◌*◌, ◌^◌, ℕ, pos, unsigned_abs, length, slice_index_or, Option};
ghost use Rattle.quant_math.specs.declared.levels.TheConstants.{LEAST_COEFFICIENT};
ghost use Rattle.quant_math.specs.Levels.{coefficient_of as coefficient_of_level};
ghost use Rattle.quant_math.specs.Scales.{IsCode};
ghost use Rattle.picture_grammar.specs.Block.{first_place};
ghost use Rattle.requantiser.specs.Distortion.{coefficient_of_macroblock, difference_of, squared_difference};
ghost use Rattle.picture_grammar.specs.Macroblock.{no_block};
ghost use Rattle.requantiser.specs.Macroblocks.{is_empty_block};
ghost use Rattle.requantiser.specs.Levels.{HasWeights, coefficient_at, scan_place, scale_of, weight_at as weight_at_place};
ghost use Rattle.requantiser.specs.Private.Shapes.{AreCoefficients, FitBlock, IsSide};
ghost use Rattle.requantiser.specs.Private.Sums.{sum_from};

use crate::block::weight_at;
use picture_grammar::stands::block_way;
use quant_math::{inverse, scale, scan};
use syntax_types::{BLOCK_PLACES, BLOCKS, Block, BlockWay, Macroblock, PictureParameters};

/// The coefficients of a block that isn't coded.
const NO_COEFFICIENTS: [i16; BLOCK_PLACES] = [0; BLOCK_PLACES];

/// A macroblock that isn't skipped, with what its coefficients depend on.
#[derive(Clone, Copy)]
pub struct Side<'a> {
    pub picture: PictureParameters<'a>,
    /// quantiser_scale_code in force in the macroblock.
    pub code: u8,
    pub macroblock: &'a Macroblock,
}

/// The sum of the squares of the differences of two macroblocks' coefficients.
pub fn difference_of_two(a: Side<'_>, b: Side<'_>) -> u64
    requires first { IsSide a.picture.seq.now a.code a.macroblock.now }
    requires second { IsSide b.picture.seq.now b.code b.macroblock.now }
    ensures value { result ≡ difference_of (coefficient_of_macroblock a.entry.picture.seq.now a.entry.picture.coding.now a.entry.code (Option.Some a.entry.macroblock.now))
        (coefficient_of_macroblock b.entry.picture.seq.now b.entry.picture.coding.now b.entry.code (Option.Some b.entry.macroblock.now)) }
    ensures bound { result ≤ 2 ^ 41 }
{
    let mut sum = 0;
    for i in 0..BLOCKS {
        sum += difference_in_block(a, b, i);
    }
    sum
}

/// The sum of the squares of the differences of two macroblocks' coefficients in one of the blocks.
fn difference_in_block(a: Side<'_>, b: Side<'_>, i: usize) -> u64
    requires first { IsSide a.picture.seq.now a.code a.macroblock.now }
    requires second { IsSide b.picture.seq.now b.code b.macroblock.now }
    requires block { i < BLOCKS }
    ensures value { result ≡ sum_from (λ place. squared_difference (coefficient_of_macroblock a.entry.picture.seq.now a.entry.picture.coding.now a.entry.code (Option.Some a.entry.macroblock.now) i place)
        (coefficient_of_macroblock b.entry.picture.seq.now b.entry.picture.coding.now b.entry.code (Option.Some b.entry.macroblock.now) i place)) 0 BLOCK_PLACES }
    ensures bound { result ≤ 2 ^ 38 }
{
    if is_empty(a.macroblock, i) && is_empty(b.macroblock, i) {
        return 0;
    }
    let first = block_coefficients(a.picture, a.code, a.macroblock, i);
    let second = block_coefficients(b.picture, b.code, b.macroblock, i);
    squared_differences(&first, &second)
}

/// No coefficient stands in a block of a macroblock.
fn is_empty(macroblock: &Macroblock, i: usize) -> bool
    requires six { length macroblock.now.blocks ≡ BLOCKS }
    requires block { i < BLOCKS }
    ensures { result ≡ is_empty_block (slice_index_or macroblock.now.blocks i no_block) }
{
    is_empty_of(&macroblock.blocks[i])
}

fn is_empty_of(block: &Block) -> bool
    ensures { result ≡ is_empty_block block.now }
{
    block.pairs.is_empty()
}

/// The sum of the squares of the coefficients of a macroblock, where the other one is skipped.
pub fn difference_of_one(a: Side<'_>) -> u64
    requires { IsSide a.picture.seq.now a.code a.macroblock.now }
    ensures value { result ≡ difference_of (coefficient_of_macroblock a.entry.picture.seq.now a.entry.picture.coding.now a.entry.code (Option.Some a.entry.macroblock.now)) (λ i index. pos 0) }
    ensures bound { result ≤ 2 ^ 41 }
{
    let mut sum = 0;
    for i in 0..BLOCKS {
        let coefficients = block_coefficients(a.picture, a.code, a.macroblock, i);
        sum += squared_differences(&coefficients, &NO_COEFFICIENTS);
    }
    sum
}

/// The coefficients of a macroblock in one of its blocks, by raster index.
fn block_coefficients(
    picture: PictureParameters<'_>,
    code: u8,
    macroblock: &Macroblock,
    i: usize,
) -> [i16; BLOCK_PLACES]
    requires side { IsSide picture.seq.now code macroblock.now }
    requires block { i < BLOCKS }
    ensures value { (index : ℕ) → index < BLOCK_PLACES → slice_index_or result index (pos 0) ≡ coefficient_of_macroblock picture.entry.seq.now picture.entry.coding.now code (Option.Some macroblock.now) i index }
    ensures small { AreCoefficients result }
{
    let way = block_way(picture.coding, macroblock.kind, i);
    coefficients_of(picture, way, code, &macroblock.blocks[i])
}

/// The coefficients of a block by raster index, but the DC coefficient of an intra block (ISO/IEC 13818-2, 7.3 and 7.4.2).
fn coefficients_of(
    picture: PictureParameters<'_>,
    way: BlockWay,
    code: u8,
    block: &Block,
) -> [i16; BLOCK_PLACES]
    requires weights { HasWeights picture.seq.now }
    requires code { IsCode code }
    requires fits { FitBlock (first_place way) block.now.pairs.items }
    ensures value { (index : ℕ) → index < BLOCK_PLACES → slice_index_or result index (pos 0) ≡ coefficient_at picture.entry.seq.now picture.entry.coding.now way code block.now (scan_place picture.entry.coding.now.alternate_scan index) }
    ensures small { AreCoefficients result }
{
    let mut coefficients = [0; BLOCK_PLACES];
    let mut place = u8::from(way.intra);
    for pair in block.pairs.as_slice() {
        let at = place + pair.run;
        let index = usize::from(scan(picture.coding.alternate_scan, at));
        coefficients[index] = coefficient_of(picture, way, code, at, pair.level);
        place = at + 1;
    }
    coefficients
}

/// The coefficient of a level at a place of the scan.
fn coefficient_of(
    picture: PictureParameters<'_>,
    way: BlockWay,
    code: u8,
    place: u8,
    level: i16,
) -> i16
    requires weights { HasWeights picture.seq.now }
    requires code { IsCode code }
    requires place { place < BLOCK_PLACES }
    ensures small { unsigned_abs result ≤ unsigned_abs LEAST_COEFFICIENT }
    ensures value { result ≡ coefficient_of_level level (weight_at_place picture.entry.seq.now picture.entry.coding.now way.intra place) (scale_of picture.entry.coding.now code) way.intra }
{
    let weight = weight_at(picture, way.intra, place);
    inverse(
        level,
        weight,
        scale(picture.coding.q_scale_type, code),
        way.intra,
    )
}

/// The sum of the squares of the differences.
fn squared_differences(a: &[i16; BLOCK_PLACES], b: &[i16; BLOCK_PLACES]) -> u64
    requires first { AreCoefficients a.now }
    requires second { AreCoefficients b.now }
    ensures value { result ≡ sum_from (λ index. squared_difference (slice_index_or a.now index (pos 0)) (slice_index_or b.now index (pos 0))) 0 BLOCK_PLACES }
    ensures bound { result ≤ 2 ^ 38 }
{
    let mut sum = 0;
    for index in 0..BLOCK_PLACES {
        sum += squared(a[index], b[index]);
    }
    sum
}

/// The square of a difference.
fn squared(a: i16, b: i16) -> u64
    ensures value { result ≡ squared_difference a b }
    ensures bound { result ≤ 2 ^ 32 }
{
    let difference = u64::from((i32::from(a) - i32::from(b)).unsigned_abs());
    difference * difference
}
