//! What the head of a unit leaves in force, in whichever bits spell it.
ghost use Rattle.std.specs.Prelude.{ℕ, List, Option};
ghost use Rattle.syntax_types.specs.declared.picture.PicCoding.{PicCoding};
ghost use Rattle.syntax_types.specs.declared.picture.SeqState.{SeqState};
ghost use Rattle.picture_grammar.specs.Head.{head};
ghost use Rattle.picture_grammar.specs.Picture.{IsCoding, IsState, MayPrecede};

/// A head that bits spell has a coding that a picture may have, whatever stood before.
pub fn spelled_head_has_coding()
    ensures { (before : Option SeqState) (seq : SeqState) (coding : PicCoding) (bits rest : List ℕ) →
        (head before).Spells (seq, coding) bits rest → IsCoding coding }
{}

/// Behind a state that may be in force, or none before the first unit, a head leaves a state in force that may be.
pub fn spelled_head_has_state()
    ensures { (before : Option SeqState) (seq : SeqState) (coding : PicCoding) (bits rest : List ℕ) →
        MayPrecede before → (head before).Spells (seq, coding) bits rest → IsState seq }
{}
