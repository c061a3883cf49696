//! Laws of the definitions, each the contract of a function that nobody needs to call.
ghost use Rattle.std.specs.Prelude.{◌≡◌, ◌≢◌, ◌≤◌, ℕ, ℤ, Bool, List, length, All};
ghost use Rattle.std.specs.List.{sum_by};
ghost use Rattle.audio_frames.specs.declared.frame.Frame.{Frame};
ghost use Rattle.stream_constants.specs.declared.limits.TheConstants.{AUDIOS_MOST};
ghost use Rattle.ts_demux.specs.declared.demuxed.AudioStream.{AudioStream};
ghost use Rattle.ts_demux.specs.declared.demuxed.Demuxed.{Demuxed};
ghost use Rattle.ts_demux.specs.declared.demuxed.PesUnit.{PesUnit};
ghost use Rattle.ts_demux.specs.Demux.{IsDemuxed};
ghost use Rattle.elementary_streams.specs.declared.stream_fault.StreamFault.{StreamFault};
ghost use Rattle.elementary_streams.specs.declared.stream_fault.StreamFault.TheVariants.{OutOfMemory};
ghost use Rattle.elementary_streams.specs.Audio.{HasFrames, IsStreamRefused};
ghost use Rattle.elementary_streams.specs.Packets.{AreSound, IsPacketFault};

/// A stream has one answer: its PES packets have no fault or one first fault, and an audio stream has one list of frames, or one refusal
/// that isn't want of memory, and never both.
pub fn one_answer()
    ensures packets { (video : Bool) (packets : List PesUnit) (one other : StreamFault) → IsPacketFault video packets one → IsPacketFault video packets other → one ≡ other }
    ensures sound_or_fault { (video : Bool) (packets : List PesUnit) (fault : StreamFault) → AreSound video packets → IsPacketFault video packets fault → ⊥ }
    ensures frames { (first : ℤ) (stream : AudioStream) (one other : List Frame) → HasFrames first stream one → HasFrames first stream other → one ≡ other }
    ensures refused { (first : ℤ) (stream : AudioStream) (one other : StreamFault) → one ≢ OutOfMemory → other ≢ OutOfMemory →
        IsStreamRefused first stream one → IsStreamRefused first stream other → one ≡ other }
    ensures never_both { (first : ℤ) (stream : AudioStream) (frames : List Frame) (fault : StreamFault) → fault ≢ OutOfMemory →
        HasFrames first stream frames → IsStreamRefused first stream fault → ⊥ }
{}

/// Of what is taken out of a transport stream no stream has more bytes than the file, and there are no more audio streams than a program
/// may have.
pub fn within_file()
    ensures video { (file : List ℕ) (number : ℕ) (drop : List ℕ) (demuxed : Demuxed) → IsDemuxed file number drop demuxed →
        sum_by (λ packet. length packet.bytes) demuxed.video ≤ length file }
    ensures audios { (file : List ℕ) (number : ℕ) (drop : List ℕ) (demuxed : Demuxed) → IsDemuxed file number drop demuxed →
        All (λ stream. sum_by (λ packet. length packet.bytes) stream.units ≤ length file) demuxed.audios }
    ensures few_audios { (file : List ℕ) (number : ℕ) (drop : List ℕ) (demuxed : Demuxed) → IsDemuxed file number drop demuxed → length demuxed.audios ≤ AUDIOS_MOST }
{}
