//! Whether the times of a table are within the slots that a stream may have.

ghost use Rattle.std.specs.Prelude.{◌≤◌, ◌↔◌, All, IsTrue};
ghost use Rattle.version_table.specs.declared.limits.TheConstants.{SLOT_MOST};
ghost use Rattle.rate_fit.specs.Fit.{IsGoneBy, IsWithinSlots};

use list_types::ListOf;
use version_table::limits::TIME_SLOTS_MOST;
use version_table::{AudioPacket, ProgramRow, Table, Unit};

/// True where no time of a table passes the last one that a stream of its slots reaches.
pub(crate) fn is_within_time(table: &Table) -> bool
    requires { table.now.slot ≤ SLOT_MOST }
    ensures { IsTrue result ↔ IsWithinSlots table.now }
{
    let last = TIME_SLOTS_MOST * table.slot as u64;
    let programs = table.programs.as_slice();
    are_units_by(programs, last) && are_audios_by(programs, last)
}

/// True where the units of all programs are due no later than the tick.
fn are_units_by(programs: &[ProgramRow], last: u64) -> bool
    ensures { IsTrue result ↔ All (λ program. All (λ unit. unit.due ≤ last) program.units) programs.now }
{
    programs
        .iter()
        .all(|program| are_due_by(program.units.as_slice(), last))
}

/// True where units are due no later than the tick.
fn are_due_by(units: &[Unit], last: u64) -> bool
    ensures { IsTrue result ↔ All (λ unit. unit.due ≤ last) units.now }
{
    units.iter().all(|unit| unit.due <= last)
}

/// True where the audio packets of all programs are due and gone no later than the tick.
fn are_audios_by(programs: &[ProgramRow], last: u64) -> bool
    ensures { IsTrue result ↔ All (λ program. All (All (IsGoneBy last)) program.audios) programs.now }
{
    programs
        .iter()
        .all(|program| are_streams_by(program.audios.as_slice(), last))
}

/// True where the packets of audio streams are.
fn are_streams_by(audios: &[ListOf<AudioPacket>], last: u64) -> bool
    ensures { IsTrue result ↔ All (All (IsGoneBy last)) audios.now }
{
    audios
        .iter()
        .all(|audio| are_gone_by(audio.as_slice(), last))
}

/// True where audio packets are.
fn are_gone_by(packets: &[AudioPacket], last: u64) -> bool
    ensures { IsTrue result ↔ All (IsGoneBy last) packets.now }
{
    packets
        .iter()
        .all(|packet| packet.due <= last && packet.gone <= last)
}
