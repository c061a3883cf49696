//! OUT as the source of a second job, and of `probe`: its units, times and audio agree.

use crate::shelves::{ROOMY, Ran, TIGHT, probe_over, run_over};
use job_report::Form;
use program_maker::make_program;
use program_reader::{AudioSource, Program, read_program};
use std::alloc::Global;
use std::test::Fail;

/// When the earliest time is due, in ticks: as jobs have it that don't state another one.
const START: u64 = 13_500_000;

/// Whether two audio streams have the same PES packets, and the same pieces with their times.
fn are_same_audio(first: &AudioSource, second: &AudioSource) -> bool {
    first.bytes.as_slice() == second.bytes.as_slice()
        && first.pieces.as_slice() == second.pieces.as_slice()
}

/// Whether two programs have one audio stream each, the same in both.
pub fn have_same_audio(first: &Program, second: &Program) -> bool {
    match (first.audios.as_slice(), second.audios.as_slice()) {
        ([one], [other]) => are_same_audio(one, other),
        _ => false,
    }
}

/// Whether two programs have as many units, with the same times.
pub fn have_same_times(first: &Program, second: &Program) -> bool {
    for (at, unit) in first.units.as_slice().iter().enumerate() {
        match second.units.as_slice().get(at) {
            Some(other) if other.times == unit.times && other.due == unit.due => {}
            _ => return false,
        }
    }
    first.units.len() == second.units.len()
}

/// Whether OUT has the times and the audio of its source, and a second run over OUT gives OUT's very units again.
fn agree(alloc: Global, file: &[u8], first: &Ran, second: &Ran) -> Result<bool, Fail> {
    let source = read_program(alloc, file, Form::Ts, 1, &[], START)?;
    let sent = read_program(alloc, first.stream.as_slice(), Form::Ts, 1, &[], START)?;
    let again = read_program(alloc, second.stream.as_slice(), Form::Ts, 1, &[], START)?;
    Ok(
        have_same_times(&source, &sent)
            && have_same_audio(&source, &sent)
            && have_same_times(&sent, &again)
            && have_same_audio(&sent, &again)
            && sent.video.as_slice() == again.video.as_slice(),
    )
}

/// Pictures that were sent coarser: in a channel with room they go out again as they are.
#[test]
fn out_is_the_source_of_a_second_job(rt: HostRuntime) -> Result<(), Fail> {
    let file = make_program(rt.alloc(), 7, 60)?;
    let first = run_over(rt.alloc(), TIGHT, file.as_slice())?;
    assert_eq!(rt; first.code, 0);
    let second = run_over(rt.alloc(), ROOMY, first.stream.as_slice())?;
    assert_eq!(rt; second.code, 0);
    assert!(rt; agree(rt.alloc(), file.as_slice(), &first, &second)?);
    Ok(())
}

/// A program that went out in its own pictures has the same table: sizes and distortions of all versions, times and audio.
#[test]
fn out_is_probed_as_its_source_is(rt: HostRuntime) -> Result<(), Fail> {
    let file = make_program(rt.alloc(), 1, 12)?;
    let ran = run_over(rt.alloc(), ROOMY, file.as_slice())?;
    assert_eq!(rt; ran.code, 0);
    let own = probe_over(rt.alloc(), file.as_slice())?;
    let sent = probe_over(rt.alloc(), ran.stream.as_slice())?;
    assert_eq!(rt; own.code, 0);
    assert_eq!(rt; sent.code, 0);
    assert!(rt; !own.table.is_empty() && own.table.as_slice() == sent.table.as_slice());
    assert!(rt; own.line.as_slice() == sent.line.as_slice());
    Ok(())
}
