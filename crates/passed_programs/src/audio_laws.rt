//! What this reading is to those who read files whole, each a law that is the contract of a function that nobody needs to call.
ghost use Rattle.std.specs.Prelude.{◌≡◌, ◌⊎◌, ℕ, ◌+◌, ◌<◌, ℤ, List, length, slice_get, Some};
ghost use Rattle.psi_tables.specs.Pmt.{pids_of as pids_of_map};
ghost use Rattle.ts_demux.specs.declared.demuxed.AudioStream.{AudioStream};
ghost use Rattle.ts_demux.specs.declared.demuxed.Demuxed.{Demuxed};
ghost use Rattle.ts_demux.specs.Demux.{IsDemuxed};
ghost use Rattle.program_stream.specs.Split.{IsSplit};
ghost use Rattle.elementary_streams.specs.declared.audio_stream.ReadStream.{ReadStream};
ghost use Rattle.elementary_streams.specs.declared.stream_fault.StreamFault.{StreamFault};
ghost use Rattle.elementary_streams.specs.Audio.{IsStreamRead, IsStreamRefused};
ghost use Rattle.stream_pass.specs.declared.limits.TheConstants.{FILE_BYTES_MOST, PES_PACKETS_MOST};
ghost use Rattle.stream_pass.specs.PassedElements.{IsOfId, IsOverIdLimit};
ghost use Rattle.stream_pass.specs.PassedStream.{IsOfStream, IsOverLimit};
ghost use Rattle.passed_programs.specs.PassedAudio.{ReadsAudio, RefusesAudio};

/// Where `demux` takes a program out of a file, what is read of the file's stream with the number k + 1 on the PIDs of its map is what `read_stream` of
/// `elementary_streams` reads of the program's audio stream with the number k; so is what refuses it; and a limit is passed where the file is too long or that
/// stream has too many PES packets.
pub fn as_demuxed()
    ensures read { (file : List ℕ) (program : ℕ) (drop : List ℕ) (demuxed : Demuxed) (k : ℕ) (stream : AudioStream) (first : ℤ) (read : ReadStream) →
        IsDemuxed file program drop demuxed → slice_get demuxed.audios k ≡ Some stream → IsOfStream file (pids_of_map demuxed.map) (k + 1) (ReadsAudio first) read →
        IsStreamRead first stream read }
    ensures refused { (file : List ℕ) (program : ℕ) (drop : List ℕ) (demuxed : Demuxed) (k : ℕ) (stream : AudioStream) (first : ℤ) (fault : StreamFault) →
        IsDemuxed file program drop demuxed → slice_get demuxed.audios k ≡ Some stream → IsOfStream file (pids_of_map demuxed.map) (k + 1) (RefusesAudio first) fault →
        IsStreamRefused first stream fault }
    ensures limits { (file : List ℕ) (program : ℕ) (drop : List ℕ) (demuxed : Demuxed) (k : ℕ) (stream : AudioStream) →
        IsDemuxed file program drop demuxed → slice_get demuxed.audios k ≡ Some stream → IsOverLimit file (pids_of_map demuxed.map) (k + 1) →
        (FILE_BYTES_MOST < length file) ⊎ (PES_PACKETS_MOST < length stream.units) }
{
    stream_pass::laws::as_demuxed();
}

/// Where `split` takes a program out of a program stream, what is read of the id of the program's audio stream with the number k is what `read_stream` of
/// `elementary_streams` reads of that stream; so is what refuses it; and a limit is passed where the file is too long or that stream has too many PES packets.
pub fn as_split()
    ensures read { (file drop : List ℕ) (demuxed : Demuxed) (cut k : ℕ) (stream : AudioStream) (first : ℤ) (read : ReadStream) →
        IsSplit file drop demuxed cut → slice_get demuxed.audios k ≡ Some stream → IsOfId file stream.pid (ReadsAudio first) read → IsStreamRead first stream read }
    ensures refused { (file drop : List ℕ) (demuxed : Demuxed) (cut k : ℕ) (stream : AudioStream) (first : ℤ) (fault : StreamFault) →
        IsSplit file drop demuxed cut → slice_get demuxed.audios k ≡ Some stream → IsOfId file stream.pid (RefusesAudio first) fault → IsStreamRefused first stream fault }
    ensures limits { (file drop : List ℕ) (demuxed : Demuxed) (cut k : ℕ) (stream : AudioStream) →
        IsSplit file drop demuxed cut → slice_get demuxed.audios k ≡ Some stream → IsOverIdLimit file stream.pid →
        (FILE_BYTES_MOST < length file) ⊎ (PES_PACKETS_MOST < length stream.units) }
{
    stream_pass::laws::as_split();
}
