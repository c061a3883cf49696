ghost use Rattle.std.specs.Prelude.{◌≡◌};
ghost use Rattle.elementary_streams.specs.Audio.{of_frames};

use audio_frames::AudioFault;
use list_types::OutOfMemory;
use pes_units::PesFault;
use std::alloc::AllocError;
use thiserror::Error;

/// Why an elementary stream isn't read.
#[derive(Clone, Copy, Debug, PartialEq, Eq, Error)]
pub enum StreamFault {
    /// A PES packet is refused; its first transport packet stands at byte `at` of the file.
    #[error("{fault}, byte {at} of the file")]
    Pes { at: u64, fault: PesFault },
    /// The payload of an audio stream isn't frames with times.
    #[error("{0}")]
    Frames(AudioFault),
    /// Memory was wanted and not there.
    #[error("out of memory")]
    OutOfMemory,
}

impl From<OutOfMemory> for StreamFault {
    ghost use Rattle.std.specs.Prelude.{◌≡◌};
    ghost use Rattle.elementary_streams.specs.declared.stream_fault.StreamFault.TheVariants as faults;

    ghost from_gives = { λ _ fault. fault ≡ faults.OutOfMemory };

    fn from(_e: OutOfMemory) -> StreamFault {
        StreamFault::OutOfMemory
    }
}

impl From<AllocError> for StreamFault {
    ghost use Rattle.std.specs.Prelude.{◌≡◌};
    ghost use Rattle.elementary_streams.specs.declared.stream_fault.StreamFault.TheVariants as faults;

    ghost from_gives = { λ _ fault. fault ≡ faults.OutOfMemory };

    fn from(_e: AllocError) -> StreamFault {
        StreamFault::OutOfMemory
    }
}

/// What an audio stream is refused for by a fault of its frames.
pub(crate) fn frames_refused(fault: AudioFault) -> StreamFault
    ensures { result ≡ of_frames fault }
{
    match fault {
        AudioFault::OutOfMemory => StreamFault::OutOfMemory,
        _ => StreamFault::Frames(fault),
    }
}
