//! A law of units, the contract of a function that does nothing.
ghost use Rattle.std.specs.Prelude.{◌≡◌, List, ◌∷◌, ◌++◌};
ghost use Rattle.std.specs.Option.{option_map};
ghost use Rattle.bit_lists.specs.Fields.{bit_list};
ghost use Rattle.syntax_types.specs.declared.slice.Slice.{Slice};
ghost use Rattle.picture_grammar.specs.Picture.{SpellsPicture};
ghost use Rattle.picture_laws.specs.SliceStands.{SliceStands};
ghost use Rattle.picture_writer.specs.SliceBytes.{NoCodeInside};

use syntax_types::{Picture, SeqState};

/// In a unit that spells a picture behind a state each slice of it stands behind its start code, and no start code prefix
/// begins inside it, before the zero bits that close it (ISO/IEC 13818-2, 6.2.4): neither at a bit nor as three bytes.
pub fn no_start_code(before: Option<&SeqState>, picture: &Picture, unit: &[u8])
    requires spelled { SpellsPicture (option_map (λ state. state.now) before) picture.now unit.now }
    ensures stands { (earlier later : List Slice) (s : Slice) → picture.now.slices ≡ earlier ++ s ∷ later → SliceStands picture.now s (bit_list unit.now) }
    ensures bytes { (s : Slice) (stands : SliceStands picture.now s (bit_list unit.now)) → NoCodeInside picture.now s unit.now stands }
{}
