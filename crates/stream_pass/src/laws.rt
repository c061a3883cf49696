//! What this reading is to those who read files whole, each a law that is the contract of a function that nobody needs to call.
ghost use Rattle.std.specs.Prelude.{◌≡◌, ℕ, ◌+◌, List, slice_get, Some};
ghost use Rattle.psi_tables.specs.Pmt.{pids_of as pids_of_map};
ghost use Rattle.ts_demux.specs.declared.demuxed.AudioStream.{AudioStream};
ghost use Rattle.ts_demux.specs.declared.demuxed.Demuxed.{Demuxed};
ghost use Rattle.ts_demux.specs.declared.demuxed.PesUnit.{PesUnit};
ghost use Rattle.ts_demux.specs.Demux.{IsDemuxed};
ghost use Rattle.program_stream.specs.Split.{IsSplit};
ghost use Rattle.stream_pass.specs.PassedElements.{HasIdPackets};
ghost use Rattle.stream_pass.specs.PassedStream.{HasPackets};

/// Where `demux` takes a program out of a file, the PES packets of the file's stream with the number 0 on the PIDs of its map are those of the program's video, and
/// those of the stream with the number k + 1 are those of its audio stream with the number k.
pub fn as_demuxed()
    ensures video { (file : List ℕ) (program : ℕ) (drop : List ℕ) (demuxed : Demuxed) (packets : List PesUnit) →
        IsDemuxed file program drop demuxed → HasPackets file (pids_of_map demuxed.map) 0 packets → demuxed.video ≡ packets }
    ensures audio { (file : List ℕ) (program : ℕ) (drop : List ℕ) (demuxed : Demuxed) (k : ℕ) (stream : AudioStream) (packets : List PesUnit) →
        IsDemuxed file program drop demuxed → slice_get demuxed.audios k ≡ Some stream → HasPackets file (pids_of_map demuxed.map) (k + 1) packets → stream.units ≡ packets }
{}

/// Where `split` takes a program out of a program stream, the PES packets of the first id of its map are those of the program's video, and those of an audio stream's
/// id are those of this audio stream.
pub fn as_split()
    ensures video { (file drop : List ℕ) (demuxed : Demuxed) (cut id : ℕ) (packets : List PesUnit) →
        IsSplit file drop demuxed cut → slice_get (pids_of_map demuxed.map) 0 ≡ Some id → HasIdPackets file id packets → demuxed.video ≡ packets }
    ensures audio { (file drop : List ℕ) (demuxed : Demuxed) (cut k : ℕ) (stream : AudioStream) (packets : List PesUnit) →
        IsSplit file drop demuxed cut → slice_get demuxed.audios k ≡ Some stream → HasIdPackets file stream.pid packets → stream.units ≡ packets }
{}
