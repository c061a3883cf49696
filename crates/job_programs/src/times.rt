//! The times of a program, against the last time that a stream reaches.

ghost use Rattle.std.specs.Prelude.{◌≡◌, ◌≤◌, ◌<◌, ◌^◌, ◌↔◌, IsTrue, All};
ghost use Rattle.version_table.specs.declared.limits.TheConstants.{SLOT_MOST};
ghost use Rattle.program_reader.specs.declared.program.Program.{Program as AnyProgram};
ghost use Rattle.passed_programs.specs.PassedProgram.{IsReadOff};
ghost use Rattle.job_programs.specs.Programs.{last_time};
ghost use Rattle.job_programs.specs.Private.Behind.{IsPieceBy, KeepsTime};

use crate::limits::TIMES_LIMIT;
use list_types::ListOf;
use passed_programs::PassedProgram;
use program_reader::limits::TIME_SLOTS_MOST;
use program_reader::{AudioPiece, AudioSource, Program, UnitSource};

/// True where no unit of a program is due, and no audio packet due or gone, past the last time that a stream of such slots
/// reaches.
pub(crate) fn is_within_time(program: &Program, slot: u32) -> bool
    requires { slot ≤ SLOT_MOST }
    ensures { IsTrue result ↔ KeepsTime slot program.now }
{
    let last = last_of(slot);
    are_units_by(program.units.as_slice(), last) && are_audios_by(program.audios.as_slice(), last)
}

/// The same of a program without the bytes of its streams.
pub(crate) fn passed_within_time(passed: &PassedProgram, slot: u32) -> bool
    requires { slot ≤ SLOT_MOST }
    ensures { (program : AnyProgram) → IsReadOff program passed.now → IsTrue result ↔ KeepsTime slot program }
{
    let last = last_of(slot);
    if !are_units_by(passed.units.as_slice(), last) {
        return false;
    }
    are_streams_by(passed.audios.as_slice(), last)
}

/// The last time, in ticks, that a stream of such slots reaches.
fn last_of(slot: u32) -> u64
    requires { slot ≤ SLOT_MOST }
    ensures { result ≡ last_time slot }
{
    (TIME_SLOTS_MOST * slot as u64).min(TIMES_LIMIT - 1)
}

fn are_units_by(units: &[UnitSource], last: u64) -> bool
    ensures { IsTrue result ↔ All (λ unit. unit.due ≤ last) units.now }
{
    units.iter().all(|unit| unit.due <= last)
}

fn are_audios_by(audios: &[AudioSource], last: u64) -> bool
    ensures { IsTrue result ↔ All (λ audio. All (IsPieceBy last) audio.pieces) audios.now }
{
    audios
        .iter()
        .all(|audio| are_pieces_by(audio.pieces.as_slice(), last))
}

fn are_streams_by(audios: &[ListOf<AudioPiece>], last: u64) -> bool
    ensures { IsTrue result ↔ All (All (IsPieceBy last)) audios.now }
{
    audios
        .iter()
        .all(|pieces| are_pieces_by(pieces.as_slice(), last))
}

fn are_pieces_by(pieces: &[AudioPiece], last: u64) -> bool
    ensures { IsTrue result ↔ All (IsPieceBy last) pieces.now }
{
    pieces.iter().all(|piece| piece.packet.due <= last && piece.packet.gone <= last)
}
