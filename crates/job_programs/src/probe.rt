ghost use Rattle.std.specs.Prelude.{◌≡◌, ◌+◌, ◌≤◌, IfOk, IfErr, IsErrAnd};
ghost use Rattle.job_report.specs.declared.limits.TheConstants.{START_MOST};
ghost use Rattle.shelf_io.specs.Asked.{AsksUpTo};
ghost use Rattle.version_table.specs.declared.limits.TheConstants.{SLOT_MOST};
ghost use Rattle.program_reader.specs.declared.limits.TheConstants.{FILE_BYTES_MOST};
ghost use Rattle.job_programs.specs.Passed.{IsPassedProbed};
ghost use Rattle.job_programs.specs.Told.{CountReads, EndsFailed, EndsMissing, HasProbeCause, ReadsEnd};

use crate::limits::PROBED_AUDIO_PACKETS_MOST;
use crate::next::Wanted;
use crate::passed_next::{over_limit, pass_next};
use crate::share::has_few_pieces;
use crate::source_fault::ProgramsFault;
use job_report::Form;
use job_report::limits::{COARSER_DEFAULT, DRIFT_DEFAULT, WEIGHT_DEFAULT};
use passed_programs::SizedPassed;
use shelf_io::Shelf;
use std::alloc::Global;

/// The program of this number in a transport stream, read by passes over the file, without the audio streams of the PIDs in `drop`, its
/// earliest time due at `start` (in ticks), for a stream of such slots, as the one program of a job whose table's text has room for it, with
/// the sizes of all versions of its units at the ratios of a job that says nothing else, each unit being read once for both; or why it isn't
/// read, in the words of the first program of a job. No file is changed, and no bytes of streams are kept.
pub fn pass_one<K: Shelf>(
    alloc: Global,
    shelf: &mut K,
    name: &str,
    number: u16,
    drop: &[u16],
    start: u64,
    slot: u32,
) -> Result<SizedPassed, ProgramsFault>
    requires start { start ≤ START_MOST }
    requires slot { slot ≤ SLOT_MOST }
    ensures program { IfOk result (IsPassedProbed (K.files shelf.old) name.now slot start number drop.now) }
    ensures cause { IfErr result (HasProbeCause (K.files shelf.old) name.now slot start number drop.now (K.counts shelf.old) (K.counts shelf.new) (K.since_fault shelf.new)) }

    ensures files { K.files shelf.new ≡ K.files shelf.old }
    ensures asked { AsksUpTo name.now (FILE_BYTES_MOST + 1) (K.asked shelf.old) (K.asked shelf.new) }
    ensures counts { CountReads (K.counts shelf.old) (K.counts shelf.new) }
    ensures ends { ReadsEnd (IsErrAnd result EndsFailed) (IsErrAnd result EndsMissing) (K.counts shelf.old) (K.counts shelf.new) (K.since_fault shelf.new) }
{
    let next = pass_next(
        alloc,
        shelf,
        &Wanted {
            place: 0,
            file: name,
            form: Form::Ts,
            number,
            drop,
            start,
            slot,
            bytes: 0,
            units: 0,
            weight: WEIGHT_DEFAULT,
            drift: DRIFT_DEFAULT,
            coarser: &COARSER_DEFAULT,
        },
    )?;
    if !has_few_pieces(next.program.audios.as_slice(), PROBED_AUDIO_PACKETS_MOST) {
        return Err(over_limit(0));
    }
    Ok(next)
}
