//! What is sent of generated programs, read by itself: audio byte for byte, and the pictures of the plan's versions.

use crate::kept_versions::is_of_versions;
use crate::shelves::{ROOMY, Ran, TIGHT, is_between, run_over};
use job_report::Form;
use program_maker::make_program;
use program_reader::{Program, read_program};
use std::alloc::Global;
use std::test::Fail;

/// When the earliest time is due, in ticks: as jobs have it that don't state another one.
const START: u64 = 13_500_000;

/// Bytes of a certificate before its choice: mark, version, bound, distortion, and the number of units in four bytes.
const CHOICE_AT: usize = 25;

/// Whether the audio of the stream is the program's, byte for byte.
fn has_audio(stream: &Program, program: &Program) -> bool {
    match (stream.audios.as_slice(), program.audios.as_slice()) {
        ([sent], [own]) => sent.bytes.as_slice() == own.bytes.as_slice(),
        _ => false,
    }
}

/// Whether a version that isn't the source's own is chosen.
fn has_coarser(choice: &[u8]) -> bool {
    for version in choice {
        if *version != 0 {
            return true;
        }
    }
    false
}

/// The choice of so many units in a certificate; none where it is shorter.
fn choice_of(certificate: &[u8], units: usize) -> &[u8] {
    certificate
        .get(CHOICE_AT..)
        .unwrap_or(&[])
        .get(..units)
        .unwrap_or(&[])
}

/// Whether OUT has the program's audio, and its pictures in the versions that the certificate names, made again with every
/// version kept. All are the source's own where `only_sources`.
fn is_sent(alloc: Global, ran: &Ran, file: &[u8], only_sources: bool) -> Result<bool, Fail> {
    let program = read_program(alloc, file, Form::Ts, 1, &[], START)?;
    let stream = read_program(alloc, ran.stream.as_slice(), Form::Ts, 1, &[], START)?;
    let units = program.units.len();
    let choice = choice_of(ran.certificate.as_slice(), units);
    if stream.units.len() != units || choice.len() != units || has_coarser(choice) == only_sources {
        return Ok(false);
    }
    Ok(has_audio(&stream, &program) && is_of_versions(alloc, &program, &stream, choice)?)
}

#[test]
fn a_program_with_room_goes_out_in_its_own_pictures(rt: HostRuntime) -> Result<(), Fail> {
    let file = make_program(rt.alloc(), 1, 12)?;
    let ran = run_over(rt.alloc(), ROOMY, file.as_slice())?;
    assert_eq!(rt; ran.code, 0);
    assert!(rt; is_sent(rt.alloc(), &ran, file.as_slice(), true)?);
    Ok(())
}

/// Whether two runs printed and left the same.
fn are_same(first: &Ran, second: &Ran) -> bool {
    first.line.as_slice() == second.line.as_slice()
        && first.stream.as_slice() == second.stream.as_slice()
        && first.certificate.as_slice() == second.certificate.as_slice()
}

/// 300 pictures at a rate that they don't fit, twice, and at one that they do.
#[test]
fn a_large_program_is_planned_and_sent(rt: HostRuntime) -> Result<(), Fail> {
    let file = make_program(rt.alloc(), 7, 300)?;
    let tight = run_over(rt.alloc(), TIGHT, file.as_slice())?;
    let again = run_over(rt.alloc(), TIGHT, file.as_slice())?;
    assert_eq!(rt; tight.code, 0);
    assert!(rt; are_same(&tight, &again));
    assert!(rt; is_sent(rt.alloc(), &tight, file.as_slice(), false)?);
    let roomy = run_over(rt.alloc(), ROOMY, file.as_slice())?;
    assert_eq!(rt; roomy.code, 0);
    assert!(rt;
        is_between(
            roomy.line.as_slice(),
            "{\"bound\":0,\"distortion\":0,",
            "}\n"
        )
    );
    assert!(rt; is_sent(rt.alloc(), &roomy, file.as_slice(), true)?);
    Ok(())
}
