//! The program of carried streams that were read by passes over a file.
ghost use Rattle.std.specs.Prelude.{◌≡◌, ◌<◌, ◌≤◌, ◌^◌, ℕ, List, Option, None, IfErr, IfOk, IfSome, length};
ghost use Rattle.job_report.specs.declared.job.Form.TheVariants.{Ts};
ghost use Rattle.program_reader.specs.declared.unit_sizes.SizesWanted.{SizesWanted};
ghost use Rattle.program_reader.specs.Programs.{IsProgramOfFile, IsProgramRefused};
ghost use Rattle.passed_programs.specs.PassedFile.{IsPassedProgram, stop_in};
ghost use Rattle.passed_programs.specs.Private.Passes.{AreStreamsPassed, IsOfTold};

use crate::due_program::{FoundMap, due_passed};
use crate::passed_fault::PassedFault;
use crate::passes::{PROGRAM_LIMIT, VideoPassed};
use crate::sized_passed::SizedPassed;
use elementary_streams::ReadStream;
use list_types::ListOf;
use program_reader::ProgramFault;
use program_reader::limits::UNITS_MOST;
use std::alloc::Global;
use stream_constants::packets::PACKET_BYTES;
use ts_demux::CarriedStreams;

/// The program of carried streams, its earliest time due at `start`, in ticks. An error is that it has too many units, or want of memory.
pub(crate) fn due_streams(
    alloc: Global,
    carried: CarriedStreams,
    passed: VideoPassed,
    audios: &[ReadStream],
    start: u64,
) -> Result<SizedPassed, PassedFault>
    requires start { start < 2 ^ 50 }
    requires passed { (front : Option (List ℕ)) × (limit : ℕ) × (number : ℕ) × (drop : List ℕ) × (wanted : SizesWanted) × AreStreamsPassed front limit number drop wanted carried passed audios.now }
    ensures program { (front : Option (List ℕ)) (limit number : ℕ) (drop : List ℕ) (wanted : SizesWanted) → AreStreamsPassed front limit number drop wanted carried passed audios.now →
        IfOk result (IsPassedProgram start limit wanted (λ size program. IfSome front (λ file. (size ≡ length file) × IsProgramOfFile Ts file number drop start program))) }
    ensures refused { (front : Option (List ℕ)) (limit number : ℕ) (drop : List ℕ) (wanted : SizesWanted) → AreStreamsPassed front limit number drop wanted carried passed audios.now →
        IfErr result (IsOfTold front (λ whole. IsProgramRefused Ts whole number drop)) }
    ensures never { stop_in result ≡ None }
{
    program_reader::laws::maps_can_be_written();
    program_reader::laws::programs_of_files_are_read();
    let VideoPassed { video, size } = passed;
    if video.units.len() > UNITS_MOST {
        return Err(PassedFault::Refused(PROGRAM_LIMIT));
    }
    let found = FoundMap {
        map: carried.map,
        rest: (size % PACKET_BYTES as u64) as u8,
        not_carried: carried.others,
    };
    match due_passed(alloc, found, &video, audios, start) {
        Ok(program) => Ok(SizedPassed {
            program,
            sizes: ListOf::from_vec(video.sizes),
            size,
        }),
        Err(_) => Err(PassedFault::Refused(ProgramFault::OutOfMemory)),
    }
}
