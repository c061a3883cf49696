//! What is written of a part is read as that part.
ghost use Rattle.std.specs.Prelude.{◌≡◌, ℕ, List, ◌++◌, Bool, Option};
ghost use Rattle.syntax_types.specs.declared.block.Block.{Block};
ghost use Rattle.syntax_types.specs.declared.block.BlockWay.{BlockWay};
ghost use Rattle.syntax_types.specs.declared.macroblock.Kind.{Kind};
ghost use Rattle.syntax_types.specs.declared.macroblock.Macroblock.{Macroblock};
ghost use Rattle.syntax_types.specs.declared.picture.PicCoding.{PicCoding};
ghost use Rattle.syntax_types.specs.declared.picture.Picture.{Picture};
ghost use Rattle.syntax_types.specs.declared.picture.SeqState.{SeqState};
ghost use Rattle.syntax_types.specs.declared.slice.Slice.{Slice};
ghost use Rattle.picture_grammar.specs.Block.{block};
ghost use Rattle.picture_grammar.specs.Macroblock.{blocks, macroblock};
ghost use Rattle.picture_grammar.specs.Picture.{MayPrecede, IsCovered, SpellsPicture, IsLawful};
ghost use Rattle.picture_grammar.specs.Slice.{ClosesSlice, slice};
ghost use Rattle.picture_grammar.specs.Written.{written_macroblock, written_slice, IsWritten};
ghost use Rattle.picture_laws.specs.Spellable.{IsSpellable, HasSpellableCoefficients, AreSpellableBlocks, HasSpellableParts, HasSpellableMacroblocks, HasSpellableSlices};

/// Each part of a macroblock that some bits spell is one that some bits spell in its place.
pub fn spelled_macroblock_has_spellable_parts()
    ensures { (coding : PicCoding) (first : Bool) (columns_left : ℕ) (m : Macroblock) (bits rest : List ℕ) →
        (macroblock coding first columns_left).Spells m bits rest → HasSpellableParts coding first columns_left m }
{}

/// What is written of a macroblock of such parts is read as that macroblock, whatever follows.
pub fn macroblock_of_spellable_parts_is_read()
    ensures { (coding : PicCoding) (first : Bool) (columns_left : ℕ) (m : Macroblock) (following : List ℕ) →
        HasSpellableParts coding first columns_left m →
        (macroblock coding first columns_left).Spells m (written_macroblock coding m ++ following) following }
{}

/// What is written of a macroblock that some bits spell is read as that macroblock, whatever follows.
pub fn written_macroblock_is_read()
    ensures { (coding : PicCoding) (first : Bool) (columns_left : ℕ) (m : Macroblock) (bits rest following : List ℕ) →
        (macroblock coding first columns_left).Spells m bits rest →
        (macroblock coding first columns_left).Spells m (written_macroblock coding m ++ following) following }
{}

/// Some bits spell a block of such coefficients, and no other one.
pub fn block_is_spellable_by_its_coefficients()
    ensures spelled { (way : BlockWay) (b : Block) → HasSpellableCoefficients way b → IsSpellable (block way) b }
    ensures no_other { (way : BlockWay) (b : Block) → IsSpellable (block way) b → HasSpellableCoefficients way b }
{}

/// Some bits spell six blocks that are such.
pub fn blocks_are_spellable_by_number()
    ensures spelled { (coding : PicCoding) (kind : Kind) (pattern : ℕ) (bs : List Block) →
        AreSpellableBlocks coding kind pattern bs → IsSpellable (blocks coding kind pattern) bs }
    ensures no_other { (coding : PicCoding) (kind : Kind) (pattern : ℕ) (bs : List Block) →
        IsSpellable (blocks coding kind pattern) bs → AreSpellableBlocks coding kind pattern bs }
{}

/// Header and macroblocks of a slice that some bits spell are of parts that some bits spell in their place.
pub fn spelled_slice_has_spellable_macroblocks()
    ensures { (seq : SeqState) (coding : PicCoding) (row : ℕ) (s : Slice) (bits rest : List ℕ) →
        (slice seq coding row).Spells s bits rest → (s.row ≡ row) × HasSpellableMacroblocks seq coding s }
{}

/// What is written of a slice of such macroblocks is read as that slice, where what follows closes it.
pub fn slice_of_spellable_macroblocks_is_read()
    ensures { (seq : SeqState) (coding : PicCoding) (s : Slice) (following : List ℕ) →
        HasSpellableMacroblocks seq coding s → ClosesSlice following →
        (slice seq coding s.row).Spells s (written_slice coding s ++ following) following }
{}

/// What is written of a slice that some bits spell is read as that slice, where what follows closes it.
pub fn written_slice_is_read()
    ensures { (seq : SeqState) (coding : PicCoding) (row : ℕ) (s : Slice) (bits rest following : List ℕ) →
        (slice seq coding row).Spells s bits rest → ClosesSlice following →
        (slice seq coding row).Spells s (written_slice coding s ++ following) following }
{}

/// Bits that begin with a macroblock close no slice.
pub fn macroblock_never_closes_its_slice()
    ensures { (coding : PicCoding) (first : Bool) (columns_left : ℕ) (m : Macroblock) (bits rest : List ℕ) →
        (macroblock coding first columns_left).Spells m bits rest → ClosesSlice bits → ⊥ }
{}

/// The head and the slices of a picture that a unit spells are such that some bits spell them in their place.
pub fn spelled_picture_has_spellable_slices()
    ensures { (before : Option SeqState) (picture : Picture) (bytes : List ℕ) →
        SpellsPicture before picture bytes → HasSpellableSlices before picture }
{}

/// What is written of a picture of such a head and such slices is read as that picture.
pub fn picture_of_spellable_slices_is_read()
    ensures { (before : Option SeqState) (picture : Picture) (written : List ℕ) →
        HasSpellableSlices before picture → IsWritten picture written → SpellsPicture before picture written }
{}

/// What is written of a picture that a unit spells is read as that picture, behind the same state.
pub fn written_picture_is_read()
    ensures { (before : Option SeqState) (picture : Picture) (bytes written : List ℕ) →
        SpellsPicture before picture bytes → IsWritten picture written → SpellsPicture before picture written }
{}

/// Every picture is written in whole bytes.
pub fn picture_has_written_bytes()
    ensures { (picture : Picture) → (written : List ℕ) × IsWritten picture written }
{}

/// A picture of such a head and such slices, which hold all its macroblocks, is lawful.
pub fn picture_of_spellable_slices_is_lawful()
    ensures { (before : Option SeqState) (picture : Picture) →
        MayPrecede before → HasSpellableSlices before picture → IsCovered picture → IsLawful picture }
{}
