use list_types::OutOfMemory;
use thiserror::Error;

/// Why an audio payload isn't frames with times: the first of these that it has, and the byte of the payload where. The
/// first two are looked for over the whole payload, then the third, then the last.
#[derive(Clone, Copy, Debug, PartialEq, Eq, Error)]
pub enum AudioFault {
    /// No header of Layer II where one must stand, or one with another ID or sampling rate. It is at 0 where there is no
    /// first frame.
    #[error("no Layer II header at byte {at}")]
    NotLayer2 { at: u64 },
    /// No twelve ones where a frame must begin.
    #[error("no audio sync word at byte {at}")]
    AudioSync { at: u64 },
    /// The first frame is given no time.
    #[error("no time for the audio frame at byte {at}")]
    NoAudioTime { at: u64 },
    /// A frame isn't later than the one before it.
    #[error("audio frame out of order at byte {at}")]
    TimeOrder { at: u64 },
    /// Memory was wanted and not there.
    #[error("out of memory")]
    OutOfMemory,
}

impl From<OutOfMemory> for AudioFault {
    ghost use Rattle.std.specs.Prelude.{◌≡◌};
    ghost use Rattle.audio_frames.specs.declared.audio_fault.AudioFault.TheVariants as faults;

    ghost from_gives = { λ _ fault. fault ≡ faults.OutOfMemory };

    fn from(_e: OutOfMemory) -> AudioFault {
        AudioFault::OutOfMemory
    }
}
