//! The six blocks of a macroblock (6.2.5).
ghost use Rattle.picture_grammar.specs.Grammar.{when};
ghost use Rattle.picture_grammar.specs.Block.{block};
ghost use Rattle.picture_grammar.specs.Macroblock.{blocks, no_block};
ghost use Rattle.macroblock_reader.specs.Private.Answers.{Answers, answer_as};

use crate::fault::SliceFault;
use bit_cursor::BitReader;
use block_coeffs::read_block_into;
use picture_grammar::stands::{block_way, is_coded};
use shelf_io::Source;
use syntax_types::{BLOCKS, Block, BlockWay, Kind, PicCoding};

/// The blocks in their order, each where it is coded, into those that are lent. Two loops come of this: one of them has
/// intra blocks alone, the other one none.
pub fn read_blocks<S: Source>(
    from: &mut BitReader<'_, S>,
    coding: &PicCoding,
    kind: Kind,
    pattern: u8,
    into: &mut [Block; BLOCKS],
) -> Result<(), SliceFault>
    ensures { Answers ⊥ (blocks coding.now kind pattern) (answer_as (λ _. into.new) result) from.old from.new }
{
    if kind.intra {
        read_each(from, coding, kind, pattern, into)
    } else {
        let other = Kind {
            quant: kind.quant,
            forward: kind.forward,
            backward: kind.backward,
            pattern: kind.pattern,
            intra: false,
        };
        read_each(from, coding, other, pattern, into)
    }
}

/// The same by one loop.
#[inline(always)]
fn read_each<S: Source>(
    from: &mut BitReader<'_, S>,
    coding: &PicCoding,
    kind: Kind,
    pattern: u8,
    into: &mut [Block; BLOCKS],
) -> Result<(), SliceFault>
    ensures { Answers ⊥ (blocks coding.now kind pattern) (answer_as (λ _. into.new) result) from.old from.new }
{
    for i in 0..BLOCKS {
        let way = block_way(coding, kind, i);
        read_block_where(from, is_coded(kind, pattern, i), way, &mut into[i])?;
    }
    Ok(())
}

/// A block, where it is coded, and an empty one elsewhere.
#[inline(always)]
fn read_block_where<S: Source>(
    from: &mut BitReader<'_, S>,
    stands: bool,
    way: BlockWay,
    into: &mut Block,
) -> Result<(), SliceFault>
    ensures { Answers ⊥ (when stands (block way) no_block) (answer_as (λ _. into.new) result) from.old from.new }
{
    if !stands {
        into.dc = None;
        into.pairs.clear();
        return Ok(());
    }
    read_block_into(from, way, into)?;
    Ok(())
}
