//! What the streams of `read_streams` are to those who take the program out with its packets, the contract of a function that nobody needs to call.
ghost use Rattle.std.specs.Prelude.{◌≡◌, ℕ, List};
ghost use Rattle.ts_demux.specs.declared.carried_streams.CarriedStreams.{CarriedStreams};
ghost use Rattle.ts_demux.specs.declared.demuxed.Demuxed.{Demuxed};
ghost use Rattle.program_stream.specs.ElementStreams.{HasElementStreams};
ghost use Rattle.program_stream.specs.Split.{IsSplit};

/// Where these streams stand in a file, `split` takes a program out of it; and whatever `split` takes out has them and this cut.
pub fn as_split()
    ensures some { (file drop : List ℕ) (carried : CarriedStreams) (cut : ℕ) → HasElementStreams file drop carried cut → (demuxed : Demuxed) × IsSplit file drop demuxed cut }
    ensures same { (file drop : List ℕ) (carried : CarriedStreams) (cut other : ℕ) (demuxed : Demuxed) → HasElementStreams file drop carried cut → IsSplit file drop demuxed other →
        (demuxed.map ≡ carried.map) × (demuxed.not_carried ≡ carried.others) × (other ≡ cut) }
{}
