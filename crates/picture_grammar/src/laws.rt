//! Laws of the definitions, each the contract of a function that does nothing.
ghost use Rattle.std.specs.Prelude.{◌≡◌, ℕ, Bool, List, [], ◌++◌, Option};
ghost use Rattle.syntax_types.specs.declared.block.Block.{Block};
ghost use Rattle.syntax_types.specs.declared.block.BlockWay.{BlockWay};
ghost use Rattle.syntax_types.specs.declared.picture.PicCoding.{PicCoding};
ghost use Rattle.syntax_types.specs.declared.picture.SeqState.{SeqState};
ghost use Rattle.picture_grammar.specs.Exact.{IsExact};
ghost use Rattle.picture_grammar.specs.Block.{block};
ghost use Rattle.picture_grammar.specs.Written.{written_block};
ghost use Rattle.picture_grammar.specs.Macroblock.{macroblock};
ghost use Rattle.picture_grammar.specs.Slice.{slice};
ghost use Rattle.picture_grammar.specs.Head.{head};
ghost use Rattle.picture_grammar.specs.Picture.{picture_unit};

/// Bits spell at most one block, or are refused in at most one way, and never both.
pub fn blocks_are_exact()
    ensures { (way : BlockWay) → IsExact (block way) }
{}

/// No spelling of a block begins a spelling of another one, and one stretch of bits spells at most one block.
pub fn one_block()
    ensures { (way : BlockWay) (a b : Block) (bits more : List ℕ) →
        (block way).Spells a bits [] → (block way).Spells b (bits ++ more) [] → (a ≡ b) × (more ≡ []) }
{}

/// What is written of a block that some bits spell is read as that block, whatever follows.
pub fn written_block_is_read()
    ensures { (way : BlockWay) (b : Block) (bits rest following : List ℕ) →
        (block way).Spells b bits rest → (block way).Spells b (written_block way b ++ following) following }
{}

/// Bits spell at most one macroblock, or are refused in at most one way, and never both.
pub fn macroblocks_are_exact()
    ensures { (coding : PicCoding) (first : Bool) (columns_left : ℕ) → IsExact (macroblock coding first columns_left) }
{}

/// The same of slices.
pub fn slices_are_exact()
    ensures { (seq : SeqState) (coding : PicCoding) (row : ℕ) → IsExact (slice seq coding row) }
{}

/// The same of heads.
pub fn heads_are_exact()
    ensures { (before : Option SeqState) → IsExact (head before) }
{}

/// The same of units: behind one state one unit is spelled by at most one picture.
pub fn units_are_exact()
    ensures { (before : Option SeqState) → IsExact (picture_unit before) }
{}
