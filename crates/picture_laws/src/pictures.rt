//! What the headers of a unit leave in force.
ghost use Rattle.std.specs.Prelude.{ℕ, List, Option};
ghost use Rattle.syntax_types.specs.declared.picture.Picture.{Picture};
ghost use Rattle.syntax_types.specs.declared.picture.SeqState.{SeqState};
ghost use Rattle.picture_grammar.specs.Picture.{IsCoding, IsState, MayPrecede, SpellsPicture};

/// A picture that a unit spells has a coding that a picture may have.
pub fn spelled_picture_has_coding()
    ensures { (before : Option SeqState) (picture : Picture) (bytes : List ℕ) →
        SpellsPicture before picture bytes → IsCoding picture.coding }
{}

/// Behind a state that may be in force, or none before the first unit, the state of a picture that a unit spells is one
/// that may be: it may precede the next unit.
pub fn spelled_picture_has_state()
    ensures { (before : Option SeqState) (picture : Picture) (bytes : List ℕ) →
        MayPrecede before → SpellsPicture before picture bytes → IsState picture.seq }
{}
