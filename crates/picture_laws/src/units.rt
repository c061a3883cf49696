//! What holds of all units.
ghost use Rattle.std.specs.Prelude.{◌≡◌, ◌⊎◌, ℕ, List, Option};
ghost use Rattle.syntax_types.specs.declared.picture.Picture.{Picture};
ghost use Rattle.syntax_types.specs.declared.picture.SeqState.{SeqState};
ghost use Rattle.picture_grammar.specs.Refusal.{Refusal};
ghost use Rattle.picture_grammar.specs.Picture.{IsCovered, SpellsPicture, RefusesPicture};

/// Behind every state, a unit is spelled by a picture whose slices hold all its macroblocks, or it is refused.
pub fn unit_is_spelled_or_refused()
    ensures { (before : Option SeqState) (bytes : List ℕ) →
        ((picture : Picture) × SpellsPicture before picture bytes × IsCovered picture)
        ⊎ ((refusal : Refusal) × (place : ℕ) × RefusesPicture before bytes refusal place) }
{}

/// Never both.
pub fn spelled_unit_is_not_refused()
    ensures { (before : Option SeqState) (bytes : List ℕ) (picture : Picture) (refusal : Refusal) (place : ℕ) →
        SpellsPicture before picture bytes → IsCovered picture → RefusesPicture before bytes refusal place → ⊥ }
{}

/// A unit is refused in one way, at one place.
pub fn unit_has_one_refusal()
    ensures { (before : Option SeqState) (bytes : List ℕ) (refusal other : Refusal) (place other_place : ℕ) →
        RefusesPicture before bytes refusal place → RefusesPicture before bytes other other_place →
        (refusal ≡ other) × (place ≡ other_place) }
{}
