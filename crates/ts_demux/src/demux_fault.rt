ghost use Rattle.std.specs.Prelude.{◌≡◌};
ghost use Rattle.ts_packets.specs.declared.packet_fault.PacketFault.{PacketFault};
ghost use Rattle.ts_demux.specs.Faults.{of_packet, of_pid, of_section};

use list_types::OutOfMemory;
use psi_tables::SectionFault;
use std::alloc::{AllocError, AllocFailed};
use thiserror::Error;
use ts_packets::{PacketFault, PidFault};

/// Why a program isn't taken out of a transport stream: the first of these in the order of reading, and the byte of the
/// file where the packet stands that has it. What no packet has is at 0.
#[derive(Clone, Copy, Debug, PartialEq, Eq, Error)]
pub enum DemuxFault {
    /// The file has fewer bytes than a packet.
    #[error("a file shorter than a packet from byte {at} on")]
    ShortFile { at: u64 },
    /// A packet without the sync byte.
    #[error("no sync byte at byte {at}")]
    Sync { at: u64 },
    /// A packet with `transport_error_indicator`.
    #[error("transport error at byte {at}")]
    ErrorFlag { at: u64 },
    /// A scrambled packet.
    #[error("scrambled packet at byte {at}")]
    Scrambled { at: u64 },
    /// An adaptation field whose length doesn't fit.
    #[error("bad adaptation field at byte {at}")]
    BadField { at: u64 },
    /// A discontinuity behind the first packet of a PID.
    #[error("discontinuity at byte {at}")]
    Discontinuity { at: u64 },
    /// A counter that doesn't go on.
    #[error("gap at byte {at}")]
    Gap { at: u64 },
    /// A section that isn't one: a pointer past its payload, a bad length, loops that don't fill it.
    #[error("bad section at byte {at}")]
    BadSection { at: u64 },
    /// A section with a wrong CRC.
    #[error("bad CRC at byte {at}")]
    BadCrc { at: u64 },
    /// No current PAT section.
    #[error("no program association table from byte {at} on")]
    NoPat { at: u64 },
    /// No current PAT section names the program.
    #[error("no such program from byte {at} on")]
    NoProgram { at: u64 },
    /// No current PMT section of the program.
    #[error("no program map table from byte {at} on")]
    NoPmt { at: u64 },
    /// No stream of the type of video.
    #[error("no video stream from byte {at} on")]
    NoVideo { at: u64 },
    /// More than eight audio streams.
    #[error("too many audio streams from byte {at} on")]
    ProgramLimit { at: u64 },
    /// The PMT section of the carried streams wouldn't stand in one packet.
    #[error("program map too long from byte {at} on")]
    PmtTooLong { at: u64 },
    /// Memory was wanted and not there.
    #[error("out of memory")]
    OutOfMemory,
}

impl From<OutOfMemory> for DemuxFault {
    ghost use Rattle.std.specs.Prelude.{◌≡◌};
    ghost use Rattle.ts_demux.specs.declared.demux_fault.DemuxFault.TheVariants as faults;

    ghost from_gives = { λ _ fault. fault ≡ faults.OutOfMemory };

    fn from(_e: OutOfMemory) -> DemuxFault {
        DemuxFault::OutOfMemory
    }
}

impl From<AllocError> for DemuxFault {
    ghost use Rattle.std.specs.Prelude.{◌≡◌};
    ghost use Rattle.ts_demux.specs.declared.demux_fault.DemuxFault.TheVariants as faults;

    ghost from_gives = { λ _ fault. fault ≡ faults.OutOfMemory };

    fn from(_e: AllocError) -> DemuxFault {
        DemuxFault::OutOfMemory
    }
}

impl<T: Drop> From<AllocFailed<T>> for DemuxFault {
    ghost use Rattle.std.specs.Prelude.{◌≡◌};
    ghost use Rattle.ts_demux.specs.declared.demux_fault.DemuxFault.TheVariants as faults;

    ghost from_gives = { λ _ fault. fault ≡ faults.OutOfMemory };

    fn from(_e: AllocFailed<T>) -> DemuxFault {
        DemuxFault::OutOfMemory
    }
}

/// What a packet at a place is refused for.
fn packet_refused(at: u64, fault: PacketFault) -> DemuxFault
    ensures { result ≡ of_packet at fault }
{
    match fault {
        PacketFault::Sync => DemuxFault::Sync { at },
        PacketFault::ErrorFlag => DemuxFault::ErrorFlag { at },
        PacketFault::Scrambled => DemuxFault::Scrambled { at },
        PacketFault::BadField => DemuxFault::BadField { at },
    }
}

/// What a packet at a place is refused for behind the others of its PID.
pub(crate) fn pid_refused(at: u64, fault: PidFault) -> DemuxFault
    ensures { result ≡ of_pid at fault }
{
    match fault {
        PidFault::Refused(fault) => packet_refused(at, fault),
        PidFault::Discontinuity => DemuxFault::Discontinuity { at },
        PidFault::Gap => DemuxFault::Gap { at },
    }
}

/// What a section is refused for that a packet at a place completes or breaks.
pub(crate) fn section_refused(at: u64, fault: SectionFault) -> DemuxFault
    ensures { result ≡ of_section at fault }
{
    match fault {
        SectionFault::BadSection => DemuxFault::BadSection { at },
        SectionFault::BadCrc => DemuxFault::BadCrc { at },
        SectionFault::TooLong => DemuxFault::BadSection { at },
    }
}
