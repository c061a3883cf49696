//! The state behind a unit.
ghost use Rattle.std.specs.Prelude.{◌≡◌, ◌≤◌, ◌^◌, length, IfOk, IfErr};
ghost use Rattle.std.specs.Option.{option_copied};
ghost use Rattle.syntax_types.specs.declared.picture.Picture.{Picture};
ghost use Rattle.picture_grammar.specs.Picture.{IsState, MayPrecede};
ghost use Rattle.picture_reader.specs.Picture.{IsPictureOf, IsRefusedAs};

use picture_reader::{PictureFault, check_picture};
use std::alloc::Global;
use syntax_types::SeqState;

/// The state that a unit leaves in force where it spells a picture behind the one before it, else its first refusal, as `check_picture` has them.
pub fn state_behind(
    alloc: Global,
    unit: &[u8],
    before: Option<&SeqState>,
) -> Result<SeqState, PictureFault>
    requires unit { length unit.now ≤ 2 ^ 60 }
    requires before { MayPrecede (option_copied before) }
    ensures left { IfOk result (λ seq. (picture : Picture) × IsPictureOf (option_copied before.entry) unit.now picture × (picture.seq ≡ seq)) }
    ensures state { IfOk result IsState }
    ensures refused { IfErr result (IsRefusedAs (option_copied before.entry) unit.now) }
{
    match check_picture(alloc, unit, before) {
        Ok(headers) => Ok(headers.seq),
        Err(fault) => Err(fault),
    }
}
