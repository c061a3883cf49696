//! Whether a program takes no more of a table than its share.

ghost use Rattle.std.specs.Prelude.{◌≡◌, ◌≤◌, ◌↔◌, IsTrue, length};
ghost use Rattle.std.specs.List.{sum_by};
ghost use Rattle.job_report.specs.declared.limits.TheConstants.{DRIFT_MOST, WEIGHT_MOST};
ghost use Rattle.program_reader.specs.declared.program.Program.{Program as AnyProgram};
ghost use Rattle.program_reader.specs.Sizes.{AreProgramSizes};
ghost use Rattle.job_programs.specs.Passed.{IsSizedOff};
ghost use Rattle.job_programs.specs.Share.{KeepsShare, audio_packets};

use crate::distortions::keeps_distortions;
use crate::limits::AUDIO_PACKETS_MOST;
use crate::next::Wanted;
use list_types::ListOf;
use passed_programs::SizedPassed;
use program_reader::{AudioPiece, AudioSource, SizedProgram};

/// True where a program takes no more of a table than its share, at the weight and the drift that are wanted.
pub(crate) fn keeps_share(sized: &SizedProgram, wanted: &Wanted<'_>) -> bool
    requires weight { wanted.now.weight ≤ WEIGHT_MOST }
    requires drift { wanted.now.drift ≤ DRIFT_MOST }
    requires sizes { AreProgramSizes sized.now.program wanted.now.coarser.now sized.now.sizes }
    ensures { IsTrue result ↔ KeepsShare wanted.now.weight wanted.now.drift wanted.now.coarser.now sized.now.program }
{
    if !has_few_packets(sized.program.audios.as_slice(), AUDIO_PACKETS_MOST) {
        return false;
    }
    let units = sized.program.units.as_slice();
    let sizes = sized.sizes.as_slice();
    keeps_distortions(units, sizes, wanted)
}

/// The same of a program without the bytes of its streams.
pub(crate) fn passed_keeps_share(passed: &SizedPassed, wanted: &Wanted<'_>) -> bool
    requires weight { wanted.now.weight ≤ WEIGHT_MOST }
    requires drift { wanted.now.drift ≤ DRIFT_MOST }
    requires sizes { (program : AnyProgram) × IsSizedOff program wanted.now.coarser.now passed.now }
    ensures { (program : AnyProgram) → IsSizedOff program wanted.now.coarser.now passed.now
        → IsTrue result ↔ KeepsShare wanted.now.weight wanted.now.drift wanted.now.coarser.now program }
{
    if !has_few_pieces(passed.program.audios.as_slice(), AUDIO_PACKETS_MOST) {
        return false;
    }
    let units = passed.program.units.as_slice();
    let sizes = passed.sizes.as_slice();
    keeps_distortions(units, sizes, wanted)
}

/// True where audio streams have no more than so many packets together.
fn has_few_packets(audios: &[AudioSource], most: usize) -> bool
    ensures { IsTrue result ↔ (audio_packets audios.now ≤ most) }
{
    let mut room = most;
    for audio in audios {
        if audio.pieces.len() > room {
            return false;
        }
        room -= audio.pieces.len();
    }
    true
}

/// True where the pieces of audio streams are no more than so many together.
pub(crate) fn has_few_pieces(audios: &[ListOf<AudioPiece>], most: usize) -> bool
    ensures { IsTrue result ↔ (sum_by length audios.now ≤ most) }
{
    let mut room = most;
    for pieces in audios {
        if pieces.len() > room {
            return false;
        }
        room -= pieces.len();
    }
    true
}
