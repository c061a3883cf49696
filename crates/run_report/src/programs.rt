ghost use Rattle.std.specs.Prelude.{◌≡◌, ◌++◌, length, map, take, drop, IfOk, OnOk};
ghost use Rattle.run_report.specs.Report as spec;

use job_report::{ProgramJob, ProgramReport};
use list_types::{ListOf, OutOfMemory};
use program_reader::{AudioSource, Program};
use std::alloc::Global;

/// What is reported of the programs of a run, in order. Fails only for want of memory.
pub(crate) fn program_reports(
    alloc: Global,
    jobs: &[ProgramJob],
    programs: &[Program],
    choice: &[u8],
) -> Result<ListOf<ProgramReport>, OutOfMemory>
    ensures { IfOk result (λ reports. reports ≡ spec.program_reports jobs.now programs.now choice.now) }
{
    let mut reports = ListOf::new(alloc);
    push_reports(alloc, &mut reports, jobs, programs, choice)?;
    Ok(reports)
}

/// Adds what is reported of these programs.
fn push_reports(
    alloc: Global,
    reports: &mut ListOf<ProgramReport>,
    jobs: &[ProgramJob],
    programs: &[Program],
    choice: &[u8],
) -> Result<(), OutOfMemory>
    ensures { OnOk result (reports.new ≡ reports.old ++ spec.program_reports jobs.now programs.now choice.now) }
{
    let Some((job, later_jobs)) = jobs.split_first() else {
        return Ok(());
    };
    let Some((program, later_programs)) = programs.split_first() else {
        return Ok(());
    };
    let units = program.units.len();
    let report = program_report(alloc, job, program, front(choice, units))?;
    reports.push(report)?;
    push_reports(
        alloc,
        reports,
        later_jobs,
        later_programs,
        behind(choice, units),
    )
}

/// The first versions of a choice, as many as there are.
fn front(choice: &[u8], count: usize) -> &[u8]
    ensures { result.now ≡ take count choice.now }
{
    &choice[..count.min(choice.len())]
}

/// The versions of a choice behind the first ones.
fn behind(choice: &[u8], count: usize) -> &[u8]
    ensures { result.now ≡ drop count choice.now }
{
    &choice[count.min(choice.len())..]
}

/// What is reported of one program.
fn program_report(
    alloc: Global,
    job: &ProgramJob,
    program: &Program,
    choice: &[u8],
) -> Result<ProgramReport, OutOfMemory>
    ensures { IfOk result (λ report. report ≡ spec.program_report job.now program.now choice.now) }
{
    Ok(ProgramReport {
        audio_bytes: audio_bytes(alloc, program.audios.as_slice())?,
        choice: ListOf::from_vec(choice.to_vec(alloc)?),
        descriptors_dropped: program.map.dropped,
        not_carried: ListOf::from_vec(program.not_carried.as_slice().to_vec(alloc)?),
        number: job.number,
        pes_dropped: program.pes_dropped,
        rest: program.rest,
        units_dropped: program.units_dropped,
    })
}

/// The bytes of each audio stream.
fn audio_bytes(alloc: Global, audios: &[AudioSource]) -> Result<ListOf<u64>, OutOfMemory>
    ensures { IfOk result (λ bytes. bytes ≡ map (λ audio. length audio.bytes) audios.now) }
{
    let mut bytes = ListOf::new(alloc);
    for audio in audios {
        bytes.push(audio.bytes.len() as u64)?;
    }
    Ok(bytes)
}
