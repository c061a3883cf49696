//! A unit whose bytes were read again: they needn't be what they were.
ghost use Rattle.std.specs.Prelude.{◌≡◌, ◌≤◌, length, IfOk, IsErrOf};
ghost use Rattle.std.specs.Option.{option_copied};
ghost use Rattle.pes_units.specs.VideoHeader.{AreInRange, IsBesidePts};
ghost use Rattle.picture_grammar.specs.Picture.{IsState, MayPrecede};
ghost use Rattle.picture_reader.specs.PictureFault.{refusal_told};
ghost use Rattle.version_source.specs.Sendable.{LeavesState};
ghost use Rattle.file_pieces.specs.UnitAgain.{IsPacketAgain, IsPicture, IsPlannedSize};

use crate::again_fault::AgainFault;
use list_types::ListOf;
use pes_units::Times;
use picture_reader::UnitCursor;
use std::alloc::Global;
use syntax_types::SeqState;
use version_maker::{PictureFault, UNIT_BYTES_MOST, version_of};
use version_source::with_header;

/// What is sent of a unit.
#[derive(Clone, Copy)]
pub struct UnitPlan<'a> {
    /// The times of its PES header.
    pub times: Times,
    /// How coarse its versions are, in sixteenths.
    pub coarser: &'a [u16],
    /// The number of the version that is sent: 0 for the unit itself, k for the one at ratio k - 1.
    pub index: u8,
    /// The bytes of its PES packet, header included.
    pub size: u32,
}

/// The state that a unit leaves in force behind the one before it; only its head is read. Changed where no head stands there.
pub fn state_again(unit: &[u8], before: Option<&SeqState>) -> Result<SeqState, AgainFault>
    requires unit { length unit.now ≤ UNIT_BYTES_MOST }
    requires before { MayPrecede (option_copied before) }
    ensures state { IfOk result IsState }
    ensures leaves { IsPicture (option_copied before.entry) unit.now → IfOk result (LeavesState (option_copied before.entry) unit.now) }
    ensures changed { IsErrOf result AgainFault.Changed → ¬ IsPicture (option_copied before.entry) unit.now }
    ensures not_failed { ¬ IsErrOf result AgainFault.Failed }
    ensures not_missing { ¬ IsErrOf result AgainFault.Missing }
{
    match UnitCursor::new(unit, before) {
        Ok(cursor) => Ok(cursor.headers.seq),
        Err(fault) => Err(of_picture(fault)),
    }
}

/// The PES packet of a unit in the version that is planned, of the size that is planned. Changed where the bytes are no picture behind the state, or the packet would
/// have another size.
pub fn packet_again(
    alloc: Global,
    unit: &[u8],
    before: Option<&SeqState>,
    plan: &UnitPlan<'_>,
) -> Result<ListOf<u8>, AgainFault>
    requires unit { length unit.now ≤ UNIT_BYTES_MOST }
    requires before { MayPrecede (option_copied before) }
    requires index { plan.now.index ≤ length plan.now.coarser.now }
    requires in_range { AreInRange plan.now.times }
    requires beside { IsBesidePts plan.now.times }
    ensures packet { IfOk result (IsPacketAgain (option_copied before.entry) unit.now plan.now) }
    ensures changed { IsErrOf result AgainFault.Changed → IsPicture (option_copied before.entry) unit.now → ¬ IsPlannedSize (option_copied before.entry) unit.now plan.now }
    ensures not_failed { ¬ IsErrOf result AgainFault.Failed }
    ensures not_missing { ¬ IsErrOf result AgainFault.Missing }
{
    let version = match version_of(alloc, unit, before, plan.coarser, plan.index) {
        Ok(version) => version,
        Err(fault) => return Err(of_picture(fault)),
    };
    let Ok(packet) = with_header(alloc, &plan.times, &version) else {
        return Err(AgainFault::OutOfMemory);
    };
    if packet.len() != plan.size as usize {
        return Err(AgainFault::Changed);
    }
    Ok(packet)
}

/// What comes of a unit's refusal.
fn of_picture(fault: PictureFault) -> AgainFault
    ensures changed { result ≡ AgainFault.Changed → ¬ (refusal_told fault ≡ None) }
    ensures not_failed { ¬ (result ≡ AgainFault.Failed) }
    ensures not_missing { ¬ (result ≡ AgainFault.Missing) }
{
    match fault {
        PictureFault::OutOfMemory => AgainFault::OutOfMemory,
        _ => AgainFault::Changed,
    }
}
