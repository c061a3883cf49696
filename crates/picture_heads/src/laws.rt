//! What holds of all heads.
ghost use Rattle.std.specs.Prelude.{◌≡◌, ◌%◌, ℕ, Option, List, ◌++◌, length};
ghost use Rattle.bit_lists.specs.Fields.{bit_list};
ghost use Rattle.syntax_types.specs.declared.picture.PicCoding.{PicCoding};
ghost use Rattle.syntax_types.specs.declared.picture.SeqState.{SeqState};
ghost use Rattle.picture_grammar.specs.Grammar.{with_spelling};
ghost use Rattle.picture_grammar.specs.Head.{head as head_of};
ghost use Rattle.picture_heads.specs.declared.TheConstants.{NO_DELAY};
ghost use Rattle.picture_heads.specs.Heads.{HasDelay, IsHeadWithoutDelay};

/// There is the same head without its vbv_delay.
pub fn some_head_without_delay()
    ensures { (head front delay back : List ℕ) → HasDelay head front delay back → (without : List ℕ) × IsHeadWithoutDelay head without }
{}

/// No other head is the same one without its vbv_delay.
pub fn one_head_without_delay()
    ensures { (from a b : List ℕ) → IsHeadWithoutDelay from a → IsHeadWithoutDelay from b → a ≡ b }
{}

/// The head of a picture that a unit may begin with has a vbv_delay.
pub fn head_has_delay()
    ensures { (before : Option SeqState) (seq : SeqState) (coding : PicCoding) (bytes rest : List ℕ) →
        (with_spelling (head_of before)).Spells ((seq, coding), bytes) (bit_list bytes ++ rest) rest → length rest % 8 ≡ 0
        → (front : List ℕ) × (delay : List ℕ) × (back : List ℕ) × HasDelay bytes front delay back }
{}

/// A unit may begin with the same head without its vbv_delay, which says the same but for that.
pub fn head_without_delay_is_read()
    ensures { (before : Option SeqState) (seq : SeqState) (coding : PicCoding) (bytes without rest : List ℕ) →
        (with_spelling (head_of before)).Spells ((seq, coding), bytes) (bit_list bytes ++ rest) rest → length rest % 8 ≡ 0 → IsHeadWithoutDelay bytes without
        → (with_spelling (head_of before)).Spells ((seq, record coding { vbv_delay = NO_DELAY }), without) (bit_list without ++ rest) rest }
{}
