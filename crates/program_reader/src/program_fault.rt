ghost use Rattle.std.specs.Prelude.{◌≡◌};
ghost use Rattle.program_reader.specs.Faults.{of_demux, of_split, of_pes, of_audio, of_stream};

use audio_frames::AudioFault;
use elementary_streams::StreamFault;
use list_types::OutOfMemory;
use pes_units::PesFault;
use program_stream::SplitFault;
use std::alloc::{AllocError, AllocFailed};
use thiserror::Error;
use ts_demux::DemuxFault;

/// What a program is refused for.
#[derive(Clone, Copy, Debug, PartialEq, Eq)]
pub enum SourceKind {
    /// The file is shorter than a transport packet, or than a pack header of a program stream.
    ShortFile,
    /// A transport packet without the sync byte.
    Sync,
    /// A transport packet with `transport_error_indicator`.
    ErrorFlag,
    /// A scrambled transport packet or PES packet.
    Scrambled,
    /// An adaptation field whose length doesn't fit.
    BadField,
    /// A discontinuity behind the first packet of a PID.
    Discontinuity,
    /// A counter that doesn't go on.
    Gap,
    /// A section that isn't one.
    BadSection,
    /// A section with a wrong CRC.
    BadCrc,
    /// No current PAT section.
    NoPat,
    /// No current PAT section names the program; or the program of a program stream, whose number is 1, has another one.
    NoProgram,
    /// No current PMT section of the program.
    NoPmt,
    /// No video stream.
    NoVideo,
    /// The PMT section of the carried streams wouldn't stand in one packet.
    PmtTooLong,
    /// No start code of an element of a program stream where one must stand.
    BadStart,
    /// A pack header that isn't one of MPEG-2, as those of MPEG-1 aren't.
    BadPack,
    /// No start code prefix with a stream id of the kind of stream.
    BadPrefix,
    /// A PES header that passes its packet, or nothing behind it.
    Short,
    /// A marker bit of a PES header, or its length, is wrong.
    BadMarker,
    /// A PES packet isn't as long as it states, or one of a program stream states no length.
    BadLength,
    /// No unit is left.
    NoSequence,
    /// No extension of MPEG-2 behind a header.
    NotMpeg2,
    /// Another profile or level.
    Profile,
    /// `low_delay` is set.
    LowDelay,
    /// The size or the rate of a picture is outside the limits.
    Size,
    /// What the order of a unit or its rules don't have there.
    BadHeader,
    /// No code of a table.
    NoCode,
    /// Too many coefficients.
    TooMany,
    /// A forbidden escape.
    BadEscape,
    /// No macroblock type, or what belongs to it is wrong.
    BadType,
    /// No address code, or one that may not be there.
    BadAddress,
    /// No pattern.
    BadPattern,
    /// A unit ends within an element.
    End,
    /// A macroblock is in no slice, or in two.
    Uncovered,
    /// Behind a first field stands no second field.
    FieldPair,
    /// The first unit without a time.
    NoTime,
    /// A unit or an audio frame isn't later than the one before it.
    TimeOrder,
    /// No header of Layer II, or another format.
    NotLayer2,
    /// No audio sync word.
    AudioSync,
    /// The first audio frame has no time.
    NoAudioTime,
    /// No program clock reference on the PID that the map says: of a program that is audited alone.
    NoPcr,
    /// A limit of this project is passed.
    ProgramLimit,
}

/// Why a program isn't read: the first of what refuses it in the order of reading, and its place.
#[derive(Clone, Copy, Debug, PartialEq, Eq, Error)]
pub enum ProgramFault {
    /// For transport packets, sections, elements of a program stream and PES packets the place is a byte of the file, for video one of the video's bytes,
    /// for audio one of the joined payload of its stream; 0 for what has no place.
    #[error("{kind:?} at byte {at}")]
    Refused { kind: SourceKind, at: u64 },
    /// Memory was wanted and not there.
    #[error("out of memory")]
    OutOfMemory,
}

impl From<OutOfMemory> for ProgramFault {
    ghost use Rattle.std.specs.Prelude.{◌≡◌};
    ghost use Rattle.program_reader.specs.declared.program_fault.ProgramFault.TheVariants as faults;

    ghost from_gives = { λ _ fault. fault ≡ faults.OutOfMemory };

    fn from(_e: OutOfMemory) -> ProgramFault {
        ProgramFault::OutOfMemory
    }
}

impl From<AllocError> for ProgramFault {
    ghost use Rattle.std.specs.Prelude.{◌≡◌};
    ghost use Rattle.program_reader.specs.declared.program_fault.ProgramFault.TheVariants as faults;

    ghost from_gives = { λ _ fault. fault ≡ faults.OutOfMemory };

    fn from(_e: AllocError) -> ProgramFault {
        ProgramFault::OutOfMemory
    }
}

impl<T: Drop> From<AllocFailed<T>> for ProgramFault {
    ghost use Rattle.std.specs.Prelude.{◌≡◌};
    ghost use Rattle.program_reader.specs.declared.program_fault.ProgramFault.TheVariants as faults;

    ghost from_gives = { λ _ fault. fault ≡ faults.OutOfMemory };

    fn from(_e: AllocFailed<T>) -> ProgramFault {
        ProgramFault::OutOfMemory
    }
}

/// What the transport packets and the tables are refused for.
pub fn demux_refused(fault: DemuxFault) -> ProgramFault
    ensures { result ≡ of_demux fault }
{
    let (kind, at) = match fault {
        DemuxFault::ShortFile { at } => (SourceKind::ShortFile, at),
        DemuxFault::Sync { at } => (SourceKind::Sync, at),
        DemuxFault::ErrorFlag { at } => (SourceKind::ErrorFlag, at),
        DemuxFault::Scrambled { at } => (SourceKind::Scrambled, at),
        DemuxFault::BadField { at } => (SourceKind::BadField, at),
        DemuxFault::Discontinuity { at } => (SourceKind::Discontinuity, at),
        DemuxFault::Gap { at } => (SourceKind::Gap, at),
        DemuxFault::BadSection { at } => (SourceKind::BadSection, at),
        DemuxFault::BadCrc { at } => (SourceKind::BadCrc, at),
        DemuxFault::NoPat { at } => (SourceKind::NoPat, at),
        DemuxFault::NoProgram { at } => (SourceKind::NoProgram, at),
        DemuxFault::NoPmt { at } => (SourceKind::NoPmt, at),
        DemuxFault::NoVideo { at } => (SourceKind::NoVideo, at),
        DemuxFault::ProgramLimit { at } => (SourceKind::ProgramLimit, at),
        DemuxFault::PmtTooLong { at } => (SourceKind::PmtTooLong, at),
        DemuxFault::OutOfMemory => return ProgramFault::OutOfMemory,
    };
    ProgramFault::Refused { kind, at }
}

/// What the elements and streams of a program stream are refused for.
pub(crate) fn split_refused(fault: SplitFault) -> ProgramFault
    ensures { result ≡ of_split fault }
{
    let (kind, at) = match fault {
        SplitFault::ShortFile { at } => (SourceKind::ShortFile, at),
        SplitFault::BadStart { at } => (SourceKind::BadStart, at),
        SplitFault::BadPack { at } => (SourceKind::BadPack, at),
        SplitFault::BadLength { at } => (SourceKind::BadLength, at),
        SplitFault::NoVideo { at } => (SourceKind::NoVideo, at),
        SplitFault::ProgramLimit { at } => (SourceKind::ProgramLimit, at),
        SplitFault::OutOfMemory => return ProgramFault::OutOfMemory,
    };
    ProgramFault::Refused { kind, at }
}

/// What a PES packet at a place of the file is refused for.
pub fn pes_refused(at: u64, fault: PesFault) -> ProgramFault
    ensures { result ≡ of_pes at fault }
{
    let kind = match fault {
        PesFault::BadPrefix => SourceKind::BadPrefix,
        PesFault::Short => SourceKind::Short,
        PesFault::Scrambled => SourceKind::Scrambled,
        PesFault::BadMarker => SourceKind::BadMarker,
        PesFault::BadLength => SourceKind::BadLength,
    };
    ProgramFault::Refused { kind, at }
}

/// What the frames of an audio stream are refused for.
pub fn audio_refused(fault: AudioFault) -> ProgramFault
    ensures { result ≡ of_audio fault }
{
    let (kind, at) = match fault {
        AudioFault::NotLayer2 { at } => (SourceKind::NotLayer2, at),
        AudioFault::AudioSync { at } => (SourceKind::AudioSync, at),
        AudioFault::NoAudioTime { at } => (SourceKind::NoAudioTime, at),
        AudioFault::TimeOrder { at } => (SourceKind::TimeOrder, at),
        AudioFault::OutOfMemory => return ProgramFault::OutOfMemory,
    };
    ProgramFault::Refused { kind, at }
}

/// What an elementary stream is refused for.
pub(crate) fn stream_refused(fault: StreamFault) -> ProgramFault
    ensures { result ≡ of_stream fault }
{
    match fault {
        StreamFault::Pes { at, fault } => pes_refused(at, fault),
        StreamFault::Frames(fault) => audio_refused(fault),
        StreamFault::OutOfMemory => ProgramFault::OutOfMemory,
    }
}
