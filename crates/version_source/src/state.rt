//! The state that a unit leaves in force.
ghost use Rattle.std.specs.Prelude.{IfOk};
ghost use Rattle.std.specs.Option.{option_copied};
ghost use Rattle.syntax_types.specs.declared.picture.SeqState.{SeqState};
ghost use Rattle.version_source.specs.Sendable.{IsUnitOf, LeavesState, bytes_of_unit};

use crate::packet::unit_bytes;
use list_types::OutOfMemory;
use picture_reader::UnitCursor;
use program_reader::UnitSource;
use syntax_types::SeqState;
use version_maker::want_of_memory;

/// The state that a unit of a video leaves in force, which spells a picture behind the one before it. Only its head is read. The
/// error is want of memory.
pub fn state_behind(
    es: &[u8],
    unit: &UnitSource,
    before: Option<&SeqState>,
) -> Result<SeqState, OutOfMemory>
    requires unit { IsUnitOf es.now unit.now }
    requires picture { (after : SeqState) × LeavesState (option_copied before) (bytes_of_unit es.now unit.now) after }
    ensures { IfOk result (LeavesState (option_copied before.entry) (bytes_of_unit es.now unit.now)) }
{
    let bytes = unit_bytes(es, unit);
    match UnitCursor::new(bytes, before) {
        Ok(cursor) => Ok(cursor.headers.seq),
        Err(fault) => Err(want_of_memory(fault)),
    }
}
