//! What a program is refused for that isn't audited.

ghost use Rattle.std.specs.Prelude.{◌≡◌};
ghost use Rattle.audit_command.specs.AuditCommand as spec;

use program_reader::{ProgramFault, SourceKind, audio_refused, demux_refused, pes_refused};
use stream_audit::AuditStop;

/// What stops an audit, as a refusal of its program.
pub fn refusal_of(stop: AuditStop) -> ProgramFault
    ensures { result ≡ spec.refusal_of stop }
{
    match stop {
        AuditStop::Demux(fault) => demux_refused(fault),
        AuditStop::Pes { at, fault } => pes_refused(at, fault),
        AuditStop::NoSequence => refused(SourceKind::NoSequence),
        AuditStop::Audio { pid: _, fault } => audio_refused(fault),
        AuditStop::NoPcr => refused(SourceKind::NoPcr),
        AuditStop::ProgramLimit => refused(SourceKind::ProgramLimit),
        AuditStop::OutOfMemory => ProgramFault::OutOfMemory,
    }
}

/// A refusal of the whole file.
fn refused(kind: SourceKind) -> ProgramFault
    ensures { result ≡ ProgramFault.Refused kind 0 }
{
    ProgramFault::Refused { kind, at: 0 }
}
