ghost use Rattle.std.specs.Prelude.{◌≡◌};
ghost use Rattle.stream_audit.specs.Refusals.{stop_of_demux, stop_of_stream};

use audio_frames::AudioFault;
use elementary_streams::StreamFault;
use list_types::OutOfMemory;
use pes_units::PesFault;
use std::alloc::AllocError;
use thiserror::Error;
use ts_demux::DemuxFault;

/// Why a program isn't audited: the first of these in the order of reading.
#[derive(Clone, Copy, Debug, PartialEq, Eq, Error)]
pub enum AuditStop {
    /// The program isn't taken out of the file, or a packet of PID 0, of the map's PID or of the clock's is refused.
    #[error("{0}")]
    Demux(DemuxFault),
    /// A PES packet is refused; its first transport packet stands at byte `at` of the file.
    #[error("{fault}, byte {at} of the file")]
    Pes { at: u64, fault: PesFault },
    /// The video has no sequence header.
    #[error("no sequence header")]
    NoSequence,
    /// The payload of the audio stream on this PID isn't frames with times.
    #[error("{fault}, on PID {pid}")]
    Audio { pid: u16, fault: AudioFault },
    /// The PID of the program's clock references has none.
    #[error("no program clock reference")]
    NoPcr,
    /// The file has more than `AUDITED_BYTES_MOST` bytes, or a frame of an audio stream is due later than 2^52 ticks.
    #[error("a limit of programs is passed")]
    ProgramLimit,
    /// Memory was wanted and not there.
    #[error("out of memory")]
    OutOfMemory,
}

impl From<OutOfMemory> for AuditStop {
    ghost use Rattle.std.specs.Prelude.{◌≡◌};
    ghost use Rattle.stream_audit.specs.declared.audit_stop.AuditStop.TheVariants as stops;

    ghost from_gives = { λ _ stop. stop ≡ stops.OutOfMemory };

    fn from(_e: OutOfMemory) -> AuditStop {
        AuditStop::OutOfMemory
    }
}

impl From<AllocError> for AuditStop {
    ghost use Rattle.std.specs.Prelude.{◌≡◌};
    ghost use Rattle.stream_audit.specs.declared.audit_stop.AuditStop.TheVariants as stops;

    ghost from_gives = { λ _ stop. stop ≡ stops.OutOfMemory };

    fn from(_e: AllocError) -> AuditStop {
        AuditStop::OutOfMemory
    }
}

/// What stops an audit for a fault of packets or sections, or for memory that was wanted for them.
pub(crate) fn demux_stop(fault: DemuxFault) -> AuditStop
    ensures { result ≡ stop_of_demux fault }
{
    match fault {
        DemuxFault::OutOfMemory => AuditStop::OutOfMemory,
        _ => AuditStop::Demux(fault),
    }
}

/// What stops an audit for a fault of the stream on a PID.
pub(crate) fn stream_stop(pid: u16, fault: StreamFault) -> AuditStop
    ensures { result ≡ stop_of_stream pid fault }
{
    match fault {
        StreamFault::Pes { at, fault } => AuditStop::Pes { at, fault },
        StreamFault::Frames(fault) => AuditStop::Audio { pid, fault },
        StreamFault::OutOfMemory => AuditStop::OutOfMemory,
    }
}
