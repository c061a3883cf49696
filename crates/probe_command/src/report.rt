//! What is reported of a program that is probed, as `job_report` prints it.

ghost use Rattle.std.specs.Prelude.{◌≡◌, ◌≤◌, length, map, IfOk};
ghost use Rattle.std.specs.List.{sum_by};
ghost use Rattle.job_programs.specs.declared.limits.TheConstants.{PROBED_AUDIO_PACKETS_MOST};
ghost use Rattle.passed_programs.specs.PassedProgram.{IsReadOff};
ghost use Rattle.program_reader.specs.declared.limits.TheConstants.{UNITS_MOST};
ghost use Rattle.program_reader.specs.declared.program.Program.{Program as AnyProgram};
ghost use Rattle.probe_command.specs.Report as spec;

use job_report::Report;
use list_types::{ListOf, OutOfMemory};
use passed_programs::PassedProgram;
use program_reader::AudioPiece;
use std::alloc::Global;

/// A program that was probed: the packets of each audio stream, and the units. Fails only for want of memory.
pub fn probe_report(alloc: Global, passed: &PassedProgram) -> Result<Report, OutOfMemory>
    requires packets { sum_by length passed.now.audios ≤ PROBED_AUDIO_PACKETS_MOST }
    requires units { length passed.now.units ≤ UNITS_MOST }
    ensures { (program : AnyProgram) → IsReadOff program passed.now → IfOk result (λ report. report ≡ spec.probe_report program) }
{
    let audio_packets = packets_of(alloc, passed.audios.as_slice())?;
    Ok(Report::Probe {
        audio_packets,
        units: passed.units.len() as u32,
    })
}

/// How many packets each audio stream has. Fails only for want of memory.
fn packets_of(alloc: Global, audios: &[ListOf<AudioPiece>]) -> Result<ListOf<u32>, OutOfMemory>
    requires { sum_by length audios.now ≤ PROBED_AUDIO_PACKETS_MOST }
    ensures { IfOk result (λ counts. counts ≡ map length audios.now) }
{
    let mut counts = ListOf::new(alloc);
    for pieces in audios {
        counts.push(pieces.len() as u32)?;
    }
    Ok(counts)
}
