//! Parts that don't look ahead: what spells them does so whatever follows.
ghost use Rattle.std.specs.Prelude.{ℕ, Bool};
ghost use Rattle.syntax_types.specs.declared.block.BlockWay.{BlockWay};
ghost use Rattle.syntax_types.specs.declared.picture.PicCoding.{PicCoding};
ghost use Rattle.picture_grammar.specs.Exact.{IsLocal};
ghost use Rattle.picture_grammar.specs.Block.{block};
ghost use Rattle.picture_grammar.specs.Macroblock.{macroblock};

/// Blocks don't look ahead.
pub fn blocks_are_local()
    ensures { (way : BlockWay) → IsLocal (block way) }
{}

/// Macroblocks don't look ahead.
pub fn macroblocks_are_local()
    ensures { (coding : PicCoding) (first : Bool) (columns_left : ℕ) → IsLocal (macroblock coding first columns_left) }
{}
