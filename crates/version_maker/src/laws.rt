//! What holds of all versions of units.
ghost use Rattle.std.specs.Prelude.{◌≡◌, ℕ, Option, List};
ghost use Rattle.bit_lists.specs.Fields.{AreBytes};
ghost use Rattle.syntax_types.specs.declared.picture.Picture.{Picture};
ghost use Rattle.syntax_types.specs.declared.picture.SeqState.{SeqState};
ghost use Rattle.picture_grammar.specs.Picture.{MayPrecede};
ghost use Rattle.picture_reader.specs.Picture.{IsPictureOf};
ghost use Rattle.version_maker.specs.declared.version.UnitVersion.{UnitVersion};
ghost use Rattle.version_maker.specs.Versions.{AreVersions};

/// A unit that spells a picture, whose slices hold all its macroblocks, has versions at each ratio.
pub fn some_versions()
    ensures { (before : Option SeqState) (picture : Picture) (unit coarser : List ℕ) → MayPrecede before → AreBytes unit → IsPictureOf before unit picture
        → (versions : List UnitVersion) × AreVersions before unit coarser versions }
{}

/// They are the only ones.
pub fn one_list_of_versions()
    ensures { (before : Option SeqState) (unit coarser : List ℕ) (a b : List UnitVersion) → AreVersions before unit coarser a → AreVersions before unit coarser b → a ≡ b }
{}
