//! How long the PES packets of a stream of a file are together.
ghost use Rattle.std.specs.Prelude.{◌≤◌, ℕ, List, length, All};
ghost use Rattle.std.specs.List.{sum_by};
ghost use Rattle.ts_demux.specs.declared.demuxed.Demuxed.{Demuxed};
ghost use Rattle.job_report.specs.declared.job.Form.{Form};
ghost use Rattle.program_reader.specs.Programs.{StandIn};

use crate::limits::FILE_BYTES_MOST;
use stream_constants::limits::AUDIOS_MOST;

/// What stands in a file within its limit has no more bytes a stream than such a file, no more audio streams than are carried, and at most
/// one last element that is cut.
pub fn stream_sizes()
    ensures video_small { (form : Form) (file : List ℕ) (number : ℕ) (drop : List ℕ) (found : Demuxed) (cut : ℕ) → length file ≤ FILE_BYTES_MOST →
        StandIn form file number drop found cut → sum_by (λ packet. length packet.bytes) found.video ≤ FILE_BYTES_MOST }
    ensures audios_small { (form : Form) (file : List ℕ) (number : ℕ) (drop : List ℕ) (found : Demuxed) (cut : ℕ) → length file ≤ FILE_BYTES_MOST →
        StandIn form file number drop found cut → All (λ stream. sum_by (λ packet. length packet.bytes) stream.units ≤ FILE_BYTES_MOST) found.audios }
    ensures few_audios { (form : Form) (file : List ℕ) (number : ℕ) (drop : List ℕ) (found : Demuxed) (cut : ℕ) →
        StandIn form file number drop found cut → length found.audios ≤ AUDIOS_MOST }
    ensures cut { (form : Form) (file : List ℕ) (number : ℕ) (drop : List ℕ) (found : Demuxed) (cut : ℕ) → StandIn form file number drop found cut → cut ≤ 1 }
{
    elementary_streams::laws::within_file();
    program_stream::laws::within_file();
}
