//! What these PES packets are to those who read files whole, each a law that is the contract of a function that nobody needs to call.
ghost use Rattle.std.specs.Prelude.{◌≡◌, ℕ, ◌+◌, List, ◌++◌, slice_get, Some};
ghost use Rattle.std.specs.Option.{option_to_list};
ghost use Rattle.psi_tables.specs.Pmt.{pids_of as pids_of_map};
ghost use Rattle.ts_demux.specs.declared.demuxed.AudioStream.{AudioStream};
ghost use Rattle.ts_demux.specs.declared.demuxed.Demuxed.{Demuxed};
ghost use Rattle.ts_demux.specs.declared.demuxed.PesUnit.{PesUnit};
ghost use Rattle.ts_demux.specs.Demux.{IsDemuxed};
ghost use Rattle.pes_passing.specs.declared.passing_packets.PassingPackets.{PassingPackets};
ghost use Rattle.pes_passing.specs.PassingPackets.{held_of, index_of, pids_of, StandsAtEnd};
ghost use Rattle.program_stream.specs.Split.{IsSplit};
ghost use Rattle.pes_passing.specs.declared.element_packets.ElementPackets.{ElementPackets};
ghost use Rattle.pes_passing.specs.ElementPackets as elements;

/// Where `demux` takes a program out of a file, the PES packets that passed on the PIDs of its map are those of its streams: of the video, which is the map's first,
/// and of each audio stream behind it.
pub fn as_demuxed()
    ensures video { (file : List ℕ) (program : ℕ) (drop : List ℕ) (demuxed : Demuxed) (ended : List PesUnit) (packets : PassingPackets) →
        IsDemuxed file program drop demuxed → StandsAtEnd file ended packets → pids_of packets ≡ pids_of_map demuxed.map → index_of packets ≡ 0 →
        demuxed.video ≡ ended ++ option_to_list (held_of packets) }
    ensures audio { (file : List ℕ) (program : ℕ) (drop : List ℕ) (demuxed : Demuxed) (ended : List PesUnit) (packets : PassingPackets) (k : ℕ) (stream : AudioStream) →
        IsDemuxed file program drop demuxed → StandsAtEnd file ended packets → pids_of packets ≡ pids_of_map demuxed.map → index_of packets ≡ k + 1 →
        slice_get demuxed.audios k ≡ Some stream → stream.units ≡ ended ++ option_to_list (held_of packets) }
{}

/// Where `split` takes a program out of a program stream, the PES packets that passed with a stream id of its map are those of its streams: of the video, which is the
/// map's first, and of each audio stream.
pub fn as_split()
    ensures video { (file drop : List ℕ) (demuxed : Demuxed) (cut : ℕ) (ended : List PesUnit) (packets : ElementPackets) →
        IsSplit file drop demuxed cut → elements.StandsAtEnd file ended packets → slice_get (pids_of_map demuxed.map) 0 ≡ Some (elements.id_of packets) →
        demuxed.video ≡ ended ++ option_to_list (elements.held_of packets) }
    ensures audio { (file drop : List ℕ) (demuxed : Demuxed) (cut : ℕ) (ended : List PesUnit) (packets : ElementPackets) (k : ℕ) (stream : AudioStream) →
        IsSplit file drop demuxed cut → elements.StandsAtEnd file ended packets → slice_get demuxed.audios k ≡ Some stream → stream.pid ≡ elements.id_of packets →
        stream.units ≡ ended ++ option_to_list (elements.held_of packets) }
{}
