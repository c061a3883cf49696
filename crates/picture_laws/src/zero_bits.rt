//! Zero bits inside slices: no start code begins there.
ghost use Rattle.std.specs.Prelude.{◌≡◌, ◌≤◌, ℕ, List, ◌∷◌, ◌++◌, length, Option};
ghost use Rattle.syntax_types.specs.declared.picture.PicCoding.{PicCoding};
ghost use Rattle.bit_lists.specs.Fields.{bit_list};
ghost use Rattle.syntax_types.specs.declared.picture.Picture.{Picture};
ghost use Rattle.syntax_types.specs.declared.picture.SeqState.{SeqState};
ghost use Rattle.syntax_types.specs.declared.slice.Slice.{Slice};
ghost use Rattle.picture_grammar.specs.Picture.{IsCoding, SpellsPicture};
ghost use Rattle.picture_grammar.specs.Slice.{slice};
ghost use Rattle.picture_grammar.specs.StartCode.{start_code_prefix};
ghost use Rattle.picture_laws.specs.SliceStands.{SliceStands};

/// A start code prefix that doesn't begin before a slice, in whichever bits spell it, begins behind its last macroblock.
pub fn no_start_code_in_slice()
    ensures { (seq : SeqState) (coding : PicCoding) (row : ℕ) (s : Slice) (inner rest before after : List ℕ) →
        IsCoding coding → (slice seq coding row).Spells s (inner ++ rest) rest →
        inner ++ rest ≡ before ++ start_code_prefix ++ after → length inner ≤ length before }
{}

/// Each slice of a picture stands in every unit that spells the picture, and no start code prefix begins inside it.
pub fn slices_stand_without_start_codes()
    ensures { (before : Option SeqState) (picture : Picture) (bytes : List ℕ) (earlier later : List Slice) (s : Slice) →
        SpellsPicture before picture bytes → picture.slices ≡ earlier ++ s ∷ later →
        SliceStands picture s (bit_list bytes) }
{}
