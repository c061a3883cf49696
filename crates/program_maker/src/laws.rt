//! What holds of all that is drawn, the contract of a function that does nothing.
ghost use Rattle.std.specs.Prelude.{◌<◌, ℕ, Bool};
ghost use Rattle.picture_grammar.specs.Macroblock.{macroblock};
ghost use Rattle.picture_laws.specs.Spellable.{IsSpellable};
ghost use Rattle.program_maker.specs.Heads.{coding_of};
ghost use Rattle.program_maker.specs.Macroblocks.{drawn_macroblock};

/// Each macroblock that is drawn is one that some bits spell, wherever in its row it stands (ISO/IEC 13818-2, 6.2.5).
pub fn drawn_macroblocks_are_spelled()
    ensures { (predicted first : Bool) (columns_left state : ℕ) → 0 < columns_left →
        IsSpellable (macroblock (coding_of predicted) first columns_left) (drawn_macroblock predicted state).0 }
{}
